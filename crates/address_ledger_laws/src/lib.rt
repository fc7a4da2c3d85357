// What holds of a ledger over whole histories of its calls, on any memory, and of every refusal: claims about the definitions of
// `address_ledger`. In a history each call may be handed any free count and any summary.
#![tactic(auto)]

ghost use Rattle.address_ledger_laws.specs.Laws.{HeldAndFree, OneHolder, SameAgain, GivesBack, FreedAgain};
ghost use Rattle.address_ledger_laws.specs.AnyMemory.{AnyMemory};
ghost use Rattle.address_ledger_laws.specs.Addresses.{AddressesAlone, TwoAlone};
ghost use Rattle.address_ledger_laws.specs.Counts.{RightStays, AnyCount, Moves};
ghost use Rattle.address_ledger_laws.specs.Marked.{MarksStay, AsWalked, AnyMarks};
ghost use Rattle.address_ledger_laws.specs.Written.{Written};
ghost use Rattle.address_ledger_laws.specs.Demand1.{Demand1};
ghost use Rattle.address_ledger_laws.specs.Example.{LedgerExample};

// Boards held, counted from the history, plus addresses free in the memory are the size of the range; a right count answers them.
pub fn held_and_free_law()
    ensures { HeldAndFree }
{}

// No two boards hold one address at any moment.
pub fn one_holder_law()
    ensures { OneHolder }
{}

// A board that holds an address gets the same again.
pub fn same_address_law()
    ensures { SameAgain }
{}

// A board gives back the address that it holds, and none that it does not hold.
pub fn give_back_law()
    ensures { GivesBack }
{}

// An address that was given back is granted again.
pub fn freed_address_law()
    ensures { FreedAgain }
{}

// On memory with any contents the lowest matching place counts.
pub fn lowest_slot_law()
    ensures { AnyMemory }
{}

// FFFE and FFFF are never granted: only addresses count.
pub fn addresses_law()
    ensures { AddressesAlone }
{
    short_address::laws();
}

// A range of FFFE and FFFF has nothing to grant.
pub fn reserved_range_law()
    ensures { TwoAlone }
{
    short_address::laws();
}

// A new grant writes its place, a give back a mark, a repeated grant nothing.
pub fn bytes_written_law()
    ensures { Written }
{}

// Every call leaves a right count of free addresses right.
pub fn count_stays_law()
    ensures { RightStays }
{}

// A wrong count changes no other answer.
pub fn any_count_law()
    ensures { AnyCount }
{}

// The count moves by one where an address changes hands, and is then cut.
pub fn count_moves_law()
    ensures { Moves }
{}

// Every call leaves right marks right.
pub fn summary_stays_law()
    ensures { MarksStay }
{}

// With right marks a grant is that of a walk of all addresses.
pub fn summary_search_law()
    ensures { AsWalked }
{}

// With any marks the first marked group that has a free address counts, and only a group written to is marked anew.
pub fn any_summary_law()
    ensures { AnyMarks }
{}

// A refusal has its number and changes nothing (demand 1).
pub fn demand1()
    ensures { Demand1 }
{}

// A shift of four boards on three addresses, and one whose calls are handed wrong counts and wrong summaries, as witnesses.
pub fn ledger_example()
    ensures { LedgerExample }
{}
