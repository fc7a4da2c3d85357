// The readers by themselves.
ghost use Rattle.cojp_laws.specs.ReadingOrder.{ReadersInOrder};
ghost use Rattle.cojp_laws.specs.ReadingOrderExample.{ReadingOrderExample};

// What a reader refuses is the first number of one list of tests in document 01's order: both objects, both versions, strict or not.
pub fn reading_order_law()
    ensures { ReadersInOrder }
{}

// Payloads that each step of the order refuses.
pub fn reading_order_example()
    ensures { ReadingOrderExample }
{}
