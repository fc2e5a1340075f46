// The worked examples of docs/.
ghost use Rattle.std.specs.Prelude.{IsTrue};
ghost use Rattle.model.specs.Worked.{WorkedExamples};

// Each worked example follows from the definitions. It answers true.
pub fn worked_examples() -> bool
    ensures answer { IsTrue result }
    ensures examples { WorkedExamples }
{
    true
}
