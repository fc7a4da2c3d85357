// What a node reports of the payloads it accepts (document 02, request 11).
ghost use Rattle.node_laws.specs.Reports.{ReportsFollow, ReportsExample};

// A node's reports are those of the last join answer or update that it accepted, and its next join request lists them.
pub fn reports_law()
    ensures { ReportsFollow }
{}

// Three bad parameters, one of them a key set that clashes, are reported in payload order until a good update comes.
pub fn reports_example()
    ensures { ReportsExample }
{}
