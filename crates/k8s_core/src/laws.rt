ghost use Rattle.k8s_core.specs.Pods.{pod_at};
ghost use Rattle.k8s_core.specs.Services.{service_at};
ghost use Rattle.k8s_core.specs.Slices.{slice_at};
ghost use Rattle.k8s_meta.specs.Given.{GivesOnly};
ghost use Rattle.view_types.specs.Lawful.{IsLawfulPod, IsLawfulService, IsLawfulSlice};

/// Every object that the tables read is lawful.
pub fn objects_are_lawful()
    ensures pods { GivesOnly IsLawfulPod pod_at }
    ensures services { GivesOnly IsLawfulService service_at }
    ensures slices { GivesOnly IsLawfulSlice slice_at }
{}
