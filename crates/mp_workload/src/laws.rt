ghost use Rattle.mp_workload.specs.Workload.{WorkloadsHaveModels};

/// Each workload has a hard model.
pub fn workloads_have_models()
    ensures { WorkloadsHaveModels }
{}
