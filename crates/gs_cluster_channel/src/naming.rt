use std::marker::Brand;

/// Names all channels of a cluster, by their receivers.
pub trait Naming {
    ghost use Rattle.gs_msg.specs.declared.node.NodeId.{NodeId};
    ghost use Rattle.gs_cluster_channel.specs.Names.{Name};

    ghost names: { NodeId → Name };
}

impl Naming for Brand {
    ghost use Rattle.gs_cluster_channel.specs.Named.{no_name};

    ghost names = { λ node. no_name };
}
