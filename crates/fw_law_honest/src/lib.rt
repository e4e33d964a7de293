//! The laws of a whole replay in which nobody is faulty, over frames in bytes: over every list of events without lies, and so over
//! every run, of a deployment of a deal with one agreement node, any number of executors and any rows of filters.
#![tactic(auto)]

ghost use Rattle.std.specs.Prelude.{◌≡◌, ℕ, List, Ok};
ghost use Rattle.fw_op.specs.declared.op.Op.{Op};
ghost use Rattle.fw_trace.specs.Trace.{Trace, Event};
ghost use Rattle.fw_trace.specs.Run.{Step, run, NoLies};
ghost use Rattle.fw_directory.specs.Directories.{PlainDirectory};
ghost use Rattle.fw_deal.specs.Deals.{PlainDeal};
ghost use Rattle.fw_rules.specs.World.{Deployed, trace_after, world};
ghost use Rattle.fw_law_honest.specs.Laws.{OneDecides, deployed, AgreesOnce, AcceptsAnswers, LetsDownCertificates, SendsCertificates};

/// A run that didn't fail is the trace of a list of events without lies.
pub fn law_run()
    ensures { (d : Deployed) (steps : List (Step Op ⊥)) (t : Trace (List ℕ) Op) → run (world d) steps ≡ Ok t → (events : List (Event (List ℕ) Op)) × NoLies events × (t ≡ trace_after d events) }
{}

/// All agreed frames of one number that anyone sent are one frame.
pub fn law_agreed()
    ensures events { (deal : PlainDeal) (d : PlainDirectory) → OneDecides deal d → (events : List (Event (List ℕ) Op)) → NoLies events → AgreesOnce deal d (trace_after (deployed deal d) events) }
    ensures runs { (deal : PlainDeal) (d : PlainDirectory) → OneDecides deal d → (steps : List (Step Op ⊥)) (t : Trace (List ℕ) Op) → run (world (deployed deal d)) steps ≡ Ok t → AgreesOnce deal d t }
{}

/// Each reply that a client has accepted is the reference's answer to it at its number of the agreed list.
pub fn law_accepted()
    ensures events { (deal : PlainDeal) (d : PlainDirectory) → OneDecides deal d → (events : List (Event (List ℕ) Op)) → NoLies events → AcceptsAnswers deal d (trace_after (deployed deal d) events) }
    ensures runs { (deal : PlainDeal) (d : PlainDirectory) → OneDecides deal d → (steps : List (Step Op ⊥)) (t : Trace (List ℕ) Op) → run (world (deployed deal d)) steps ≡ Ok t → AcceptsAnswers deal d t }
{}

/// Each frame that a row of filters sent downwards, and each that a filter sent to an agreement node, is in all its bytes the reply
/// that the agreed list permits for its number.
pub fn law_certificates()
    ensures events { (deal : PlainDeal) (d : PlainDirectory) → OneDecides deal d → (events : List (Event (List ℕ) Op)) → NoLies events → LetsDownCertificates deal d (trace_after (deployed deal d) events) }
    ensures filters { (deal : PlainDeal) (d : PlainDirectory) → OneDecides deal d → (events : List (Event (List ℕ) Op)) → NoLies events → SendsCertificates deal d (trace_after (deployed deal d) events) }
    ensures runs { (deal : PlainDeal) (d : PlainDirectory) → OneDecides deal d → (steps : List (Step Op ⊥)) (t : Trace (List ℕ) Op) → run (world (deployed deal d)) steps ≡ Ok t → LetsDownCertificates deal d t }
    ensures run_filters { (deal : PlainDeal) (d : PlainDirectory) → OneDecides deal d → (steps : List (Step Op ⊥)) (t : Trace (List ℕ) Op) → run (world (deployed deal d)) steps ≡ Ok t → SendsCertificates deal d t }
{}
