// The address ledger.
ghost use Rattle.address_ledger_laws.specs.Demand1.{asking, returning};
ghost use Rattle.ledger_calls.specs.Ledger.{Opens, LedgerDid, Counts};

// Opens a ledger over memory that may hold earlier grants.
pub fn pothatch_ledger_open(first: u64, size: u64, memory: &[u8], ledger: &mut [u8]) -> u32
    ensures { Opens first size memory.now ledger.old result ledger.new }
{
    ledger_calls::ledger_open(first, size, memory, ledger)
}

// Grants the board the lowest free address, or the one that it holds.
pub fn pothatch_ledger_grant(
    ledger: &mut [u8],
    memory: &mut [u8],
    board: &[u8],
    address: &mut u16,
) -> u32
    ensures { LedgerDid (asking board.now) ledger.old memory.old result ledger.new
        memory.new address.new }
{
    ledger_calls::ledger_grant(ledger, memory, board, address)
}

// Takes the board's address back.
pub fn pothatch_ledger_give_back(
    ledger: &mut [u8],
    memory: &mut [u8],
    board: &[u8],
    address: &mut u16,
) -> u32
    ensures { LedgerDid (returning board.now) ledger.old memory.old result ledger.new
        memory.new address.new }
{
    ledger_calls::ledger_give_back(ledger, memory, board, address)
}

// How many addresses are free.
pub fn pothatch_ledger_free(ledger: &[u8], count: &mut u64) -> u32
    ensures { Counts ledger.now result count.new }
{
    ledger_calls::ledger_free(ledger, count)
}
