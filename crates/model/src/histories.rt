// Symbols written are read back, whatever calls came before.
ghost use Rattle.std.specs.Prelude.{ℕ, IsTrue};
ghost use Rattle.model.specs.Histories.{State};
ghost use Rattle.model.specs.ReadBack.{AnyQueueSymbolsAreReadBack, AnyStackSymbolsAreReadBack};

// Over every list of calls that obeys the definitions, on a stack and on a queue, at every word width, with any codebooks. It answers
// true.
pub fn symbols_written_are_read_back() -> bool
    ensures answer { IsTrue result }
    ensures stack { (w : ℕ) (start : State) → AnyStackSymbolsAreReadBack w (λ (s : State). s) start }
    ensures queue { (w : ℕ) (start : State) → AnyQueueSymbolsAreReadBack w (λ (s : State). s) start }
{
    true
}
