// The writers by themselves.
ghost use Rattle.cojp_laws.specs.Demand1.{WritersDemand1};
ghost use Rattle.cojp_laws.specs.Written.{WrittenExamples};

// Demand 1 for the writers: a refusal returns its number and length 0, and leaves every byte as it was.
pub fn writers_demand1()
    ensures { WritersDemand1 }
{}

// Document 01's marked examples, and objects of the published form, hold of the definitions, written.
pub fn written_examples()
    ensures { WrittenExamples }
{}
