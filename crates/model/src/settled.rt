// What a coder holds and the call settle what the call answers and leaves.
ghost use Rattle.std.specs.Prelude.{IsTrue};
ghost use Rattle.model.specs.Settled.{CallsAreSettled};

// The relations by which coders' calls are described leave nothing open: each call has one answer, and one content after it. T is the type of
// the symbols. It answers true.
pub fn calls_are_settled<T>() -> bool
    ensures answer { IsTrue result }
    ensures settled { CallsAreSettled T }
{
    true
}
