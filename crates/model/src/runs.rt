// Runs stand for link sets.
ghost use Rattle.std.specs.Prelude.{IsTrue};
ghost use Rattle.model.specs.AcceptedRuns.{AcceptedExactlyWhenOneLinkSetsRun};
ghost use Rattle.model.specs.EqualRuns.{EqualWordsExactlyWhenEqualLinks};

// Any two accepted runs of one word width have equal words exactly when their link sets are equal; and whatever a store holds is read to the
// end exactly when it is the run of one link set, and else refused, with one refusal. It answers true.
pub fn runs_stand_for_link_sets() -> bool
    ensures answer { IsTrue result }
    ensures equal { EqualWordsExactlyWhenEqualLinks }
    ensures exactly { AcceptedExactlyWhenOneLinkSetsRun }
{
    true
}
