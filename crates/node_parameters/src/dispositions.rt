// What a node makes of each parameter.
ghost use Rattle.std.specs.Prelude.{◌≡◌};
ghost use Rattle.node_parameters.specs.Dispositions.{no_dispositions, discarded, border_only, dispositions_of};

use cojp::{Configuration, Disposition};

// `unknown` labels were passed over.
#[derive(Clone, Copy)]
pub struct Dispositions {
    pub keys: Disposition,
    pub address: Disposition,
    pub jrc: Disposition,
    pub network: Disposition,
    pub prefix: Disposition,
    pub blacklist: Disposition,
    pub rate: Disposition,
    pub unknown: u64,
}

pub fn no_dispositions() -> Dispositions
    ensures { result ≡ no_dispositions }
{
    Dispositions {
        keys: Disposition::Absent,
        address: Disposition::Absent,
        jrc: Disposition::Absent,
        network: Disposition::Absent,
        prefix: Disposition::Absent,
        blacklist: Disposition::Absent,
        rate: Disposition::Absent,
        unknown: 0,
    }
}

// A parameter that was taken or discarded is discarded.
fn discarded(report: Disposition) -> Disposition
    ensures { result ≡ discarded report }
{
    match report {
        Disposition::Absent => Disposition::Absent,
        Disposition::Taken => Disposition::Discarded,
        Disposition::Discarded => Disposition::Discarded,
    }
}

// An ordinary node further discards network identifier and prefix; blacklist and join rate are for both roles.
fn border_only(border: bool, report: Disposition) -> Disposition
    ensures { result ≡ border_only border report }
{
    if border { report } else { discarded(report) }
}

// What a border node or an ordinary one makes of each parameter.
#[tactic(auto, unfolding(crate::specs::Dispositions::dispositions_of))]
pub fn dispositions_of(border: bool, c: Configuration) -> Dispositions
    ensures { result ≡ dispositions_of border c }
{
    Dispositions {
        keys: c.keys.disposition,
        address: c.address.disposition,
        jrc: c.jrc.disposition,
        network: border_only(border, c.network.disposition),
        prefix: border_only(border, c.prefix.disposition),
        blacklist: c.blacklist.disposition,
        rate: c.rate.disposition,
        unknown: c.unknown,
    }
}
