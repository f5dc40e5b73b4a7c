//! The values of an instance file, once each is of its field's kind.

/// The type of a station: a text or a whole number.
#[derive(Drop, PartialEq, Eq, Hash)]
pub(crate) enum TypeName {
    Text(String),
    Whole(u64),
}

/// An entry of `css`: a node with a charging station, and the station's type.
#[derive(Drop)]
pub(crate) struct StationEntry {
    pub node: u64,
    pub type_name: TypeName,
}

/// An entry of `breakpoints_by_type`: a type, the times and the charges of its curve's breakpoints,
/// and its time to plug in.
#[derive(Drop)]
pub(crate) struct CurveEntry {
    pub type_name: TypeName,
    pub times: Vec<u64>,
    pub charges: Vec<u64>,
    pub plug_time: u64,
}

/// All fields. The matrices are by the node left and then the node reached.
#[derive(Drop)]
pub(crate) struct Fields {
    pub max_q: u64,
    pub stations: Vec<StationEntry>,
    pub curves: Vec<CurveEntry>,
    pub process_times: Vec<u64>,
    pub energies: Vec<Vec<u64>>,
    pub times: Vec<Vec<u64>>,
    pub t_max: Option<u64>,
    pub max_t: Option<u64>,
    pub min_q: u64,
    pub home_q: u64,
}
