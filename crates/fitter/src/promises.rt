// What is promised of the calls together. Each promise is the contract of a function that does nothing: a caller has it
// by the call.
ghost use Rattle.fitter.specs.LentMemory.{LentMemory};
ghost use Rattle.fitter.specs.LabelsMeanCtl.{LabelsMeanCtl};
ghost use Rattle.fitter.specs.RepairerAndJudge.{RepairerAndJudge};

/// What every call answers and leaves in the memory that it is lent, for every input.
#[tactic(auto, using(crate::proofs::LentMemory::lent_memory_lem))]
pub fn lent_memory()
    ensures { LentMemory }
{}

/// The labels are the meaning of the rule over infinite paths.
#[tactic(auto, using(crate::proofs::LabelsMeanCtl::labels_mean_ctl_lem))]
pub fn labels_mean_ctl()
    ensures { LabelsMeanCtl }
{}

/// What the repairer answers is right, and the judge accepts exactly the narrow repairs.
pub fn repairer_and_judge()
    ensures { RepairerAndJudge }
{}
