// What holds of a journal over whole histories of calls and power cuts: claims about the definitions of `address_journal` and
// `address_ledger`.
#![tactic(auto)]

ghost use Rattle.address_journal_laws.specs.Laws.{PrefixResumes, PowerCuts, ApartFixtures, SharesApart};
ghost use Rattle.address_journal_laws.specs.Damage.{DamageFound};
ghost use Rattle.address_journal_laws.specs.Example.{JournalExample};

// Resuming any prefix of a journal gives the ledger after the calls whose records are whole in it.
pub fn prefix_resumes_law()
    ensures { PrefixResumes }
{
    address_ledger_laws::bytes_written_law();
    address_ledger_laws::count_moves_law();
    address_ledger_laws::demand1();
}

// Over calls and power cuts no two boards hold one address, and a board that holds one is granted the same again.
pub fn power_cuts_law()
    ensures { PowerCuts }
{
    address_ledger_laws::bytes_written_law();
    address_ledger_laws::count_moves_law();
    address_ledger_laws::demand1();
    address_ledger_laws::one_holder_law();
    address_ledger_laws::same_address_law();
}

// Fixtures with ranges that do not meet never hold one address for two boards.
pub fn apart_fixtures_law()
    ensures { ApartFixtures }
{
    address_ledger_laws::one_holder_law();
}

// The parts of a range that several fixtures share do not meet.
pub fn shares_apart_law()
    ensures { SharesApart }
{}

// A record is taken only where its call appends it; with one changed byte it is not taken.
pub fn damage_found_law()
    ensures { DamageFound }
{}

// A shift with power cuts, damage and a second fixture, computed.
pub fn journal_example()
    ensures { JournalExample }
{}
