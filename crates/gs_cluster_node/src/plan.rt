use gs_cluster_channel::Naming;
use std::marker::Brand;

/// Names the channels of a cluster, and says with what its nodes begin.
pub trait Plan: Naming {
    ghost use Rattle.gs_cluster_history.specs.Setting.{Setting};

    ghost setting: { Setting };
}

impl Plan for Brand {
    ghost use Rattle.gs_cluster_history.specs.Setting.{no_setting};

    ghost setting = { no_setting };
}
