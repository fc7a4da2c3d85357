// Configurations handed to a node: join answers (join responses) and parameter updates.
ghost use Rattle.std.specs.Prelude.{◌≡◌};
ghost use Rattle.node.specs.Delivery.{undelivered, owes_identifier, deliver};
ghost use Rattle.node_attempt.specs.declared.delivery.Delivery.TheVariants as delivery;
ghost use Rattle.node_key_sets.specs.Sets.{set_at};

use crate::node::Node;
use cojp::{Disposition, OctetsParameter, error_reports_of, is_taken, no_key_set};
use cojp_read::read_configuration;
use link_key::set::KeySet;
use link_key_counters::{none_counted, with_zero_counters};
use node_attempt::delivery::Delivery;
use node_key_sets::{InstallSlot, KeySets};
use node_parameters::Dispositions;
use node_parameters::dispositions::{dispositions_of, no_dispositions};
use protocol_version::Version;
use refusal::Refusal;

// Beside a refusal stand the empty report and the node as it was.
// Kept: the theorem Demand1 of node_laws speaks of both beside a refusal.
#[derive(Clone, Copy)]
pub struct DeliveryResult {
    pub verdict: Result<(), Refusal>,
    pub dispositions: Dispositions,
    pub node: Node,
}

// The sets with a new one at the place that was decided.
fn with_set(sets: KeySets, spot: InstallSlot, set: KeySet) -> KeySets
    ensures { result ≡ set_at spot sets set }
{
    let active = sets.active;
    match spot {
        InstallSlot::Active => KeySets {
            active: active.inherit_counters(set),
            pending: none_counted(),
        },
        InstallSlot::Same => KeySets {
            active,
            pending: none_counted(),
        },
        InstallSlot::Pending => KeySets {
            active,
            pending: with_zero_counters(set),
        },
    }
}

impl Node {
    fn undelivered(self, why: Refusal) -> DeliveryResult
        ensures { result ≡ undelivered why self }
    {
        DeliveryResult {
            verdict: Err(why),
            dispositions: no_dispositions(),
            node: self,
        }
    }

    // A border node's join answer owes a network identifier that neither the request nor the answer had.
    fn owes_identifier(self, delivery: Delivery, parameter: OctetsParameter) -> bool
        ensures { result ≡ owes_identifier delivery self parameter.disposition }
    {
        delivery.asks_identifier()
            && self.role == 1
            && !self.network.held
            && !is_taken(parameter.disposition)
    }

    // A payload with a configuration of the node's form: RANGE: the node; LONG, CLOCK, PHASE; then reading, OWED, CLASH in the draft.
    // The node is changed where it stands: handed from function to function, an update costs a fifth more.
    fn deliver(mut self, delivery: Delivery, time: u64, payload: &[u8]) -> DeliveryResult
        ensures { result ≡ deliver delivery self time payload.now }
    {
        if !self.valid() {
            return self.undelivered(Refusal::Range);
        }
        if let Err(why) = delivery.may_come(self.attempt, time, payload.len()) {
            return self.undelivered(why);
        }
        let read = read_configuration(payload, self.version, false);
        if let Err(why) = read.verdict {
            return self.undelivered(why);
        }
        let mut c = read.configuration;
        if self.owes_identifier(delivery, c.network) {
            return self.undelivered(Refusal::Owed);
        }
        let keys = c.keys;
        if is_taken(keys.disposition) {
            match self.sets.decide_install(self.role == 1, keys.value) {
                // The draft refuses a set that cannot be placed, the published form takes the rest.
                Err(why) => match self.version {
                    Version::Draft => return self.undelivered(why),
                    Version::Published => c.keys = no_key_set(Disposition::Discarded),
                },
                Ok(spot) => self.sets = with_set(self.sets, spot, keys.value),
            }
        }
        let reports = dispositions_of(self.role == 1, c);
        self.attempt = delivery.attempt_after(self.attempt, time);
        self.address = self.address.after(time, c.address);
        self.jrc = self.jrc.after(reports.jrc, c.jrc);
        self.network = self.network.after(reports.network, c.network);
        self.prefix = self.prefix.after(reports.prefix, c.prefix);
        self.blacklist = self.blacklist.after(c.blacklist);
        self.rate = self.rate.after(c.rate);
        self.errors = error_reports_of(c);
        DeliveryResult {
            verdict: Ok(()),
            dispositions: reports,
            node: self,
        }
    }

    // A join answer, which belongs to a waiting node and makes it joined.
    pub fn join_answer(self, time: u64, payload: &[u8]) -> DeliveryResult
        ensures { result ≡ deliver delivery.JoinAnswer self time payload.now }
    {
        self.deliver(Delivery::JoinAnswer, time, payload)
    }

    // A parameter update, which belongs to a joined node.
    pub fn update(self, time: u64, payload: &[u8]) -> DeliveryResult
        ensures { result ≡ deliver delivery.Update self time payload.now }
    {
        self.deliver(Delivery::Update, time, payload)
    }
}
