// What is promised of the definitions of crate cojp besides cojp_laws: which payloads of the published form (RFC 9031) are refused, which
// values are good, what is reported and in which order, how many labels are passed over, and that what was read is in range and can be
// written again.
#![tactic(auto)]

ghost use Rattle.cojp_rfc9031_laws.specs.BadValues.{BadValues};
ghost use Rattle.cojp_rfc9031_laws.specs.GoodValues.{GoodValues};
ghost use Rattle.cojp_rfc9031_laws.specs.InOrder.{ReportsInOrder, RequestInOrder};
ghost use Rattle.cojp_rfc9031_laws.specs.InRange.{RequestReadsInRange};
ghost use Rattle.cojp_rfc9031_laws.specs.ListedAs.{ListedAs};
ghost use Rattle.cojp_rfc9031_laws.specs.UnknownCount.{UnknownCount};
ghost use Rattle.cojp_rfc9031_laws.specs.Verdicts.{BadNeverRefuses};
ghost use Rattle.cojp_rfc9031_laws.specs.WrittenBack.{WrittenBack};

// In the published form no bad value refuses a payload, but for one:
// a join request whose network identifier is bad, as one without, is OWED.
pub fn bad_never_refuses_law()
    ensures { BadNeverRefuses }
{}

// Tables of payloads of the published form with values that are bad or just good, and of what they are answered with.
pub fn bad_values_law()
    ensures { BadValues }
{}

// Of every payload of the published form that is accepted: a parameter is taken exactly if docs/RFC9031.md calls its value good, and kept
// as what the value stands for.
pub fn good_values_law()
    ensures { GoodValues }
{
    cbor::laws();
    cbor::head_laws();
}

// What was bad in a configuration is reported once and in payload order, and nothing else is.
pub fn reports_in_order_law()
    ensures { ReportsInOrder }
{}

// The same of a join request; its role reads as 0 where it is bad.
pub fn request_in_order_law()
    ensures { RequestInOrder }
{}

// Each label that is not known, a negative one included, is passed over and counted, and no other, in either form.
pub fn unknown_count_law()
    ensures { UnknownCount }
{}

// The reports that a node keeps stand in its join request as code, label and null each.
pub fn listed_as_law()
    ensures { ListedAs }
{
    cojp_list::laws();
}

// What the reader of join requests takes is in range of its form, and it owes nothing.
pub fn request_reads_in_range_law()
    ensures { RequestReadsInRange }
{
    cbor::laws();
    cbor::head_laws();
    cojp::strict_readers_law();
}

// What was read, in either form, can be written again, in at most as many bytes.
pub fn written_back_law()
    ensures { WrittenBack }
{
    cbor::laws();
    cbor::head_laws();
    cojp::reads_in_range_law();
    cojp::strict_readers_law();
}
