// What a node of the published form makes of a configuration (document 02, request 11).
ghost use Rattle.node_laws.specs.Fitted.{ClashLeavesRest};
ghost use Rattle.node_laws.specs.Published.{PublishedExample};

// In the published form a key set that clashes is discarded, and nothing else of the configuration moves; every other is applied as it is.
pub fn clash_law()
    ensures { ClashLeavesRest }
{}

// By example: a key set that clashes is reported and leaves both sets, the rest of the payload is taken, and the address holds for its
// lease in hours.
pub fn published_example()
    ensures { PublishedExample }
{}
