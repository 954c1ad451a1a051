use dep_graph::Resource;

/// The first thing that is wrong with sizes and a placement.
#[derive(Clone, Copy, Debug, PartialEq, Eq)]
pub enum PlaceFault {
    /// The assume clauses don't hold, or what counts cells or is a modulus has a size of 0.
    Terms,
    /// The placement isn't the list of the instances: this is the first place that differs.
    Instances {
        place: u32,
    },
    /// An instance stands in a stage that the target doesn't have.
    StageOut {
        unit: u32,
        index: u32,
        stage: u8,
    },
    /// An instance and a later one stand against their order.
    Order {
        unit: u32,
        index: u32,
        other: u32,
        other_index: u32,
    },
    /// A stage takes more of a resource than the target has.
    Over {
        stage: u8,
        resource: Resource,
        used: u128,
        limit: u64,
    },
    /// Headers and metadata take more bits than the target has.
    Header {
        used: u128,
        limit: u64,
    },
}
