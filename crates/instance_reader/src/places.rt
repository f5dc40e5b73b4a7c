//! Places in an instance file: a key of the top object, and the way down from there.

ghost use Rattle.std.specs.Prelude.{◌≡◌};
ghost use Rattle.instance_reader.specs.Places.{at_key, item_of, key_text, part_of, part_text};

/// A key of an instance's top object.
#[derive(Clone, Copy, Debug, PartialEq, Eq)]
pub enum Key {
    /// The charge of a full battery.
    MaxQ,
    /// The charging stations.
    Css,
    /// The charging curves, by type of station.
    Breaks,
    /// The process times, by node.
    Service,
    /// The energies of arcs, by the node left and the node reached.
    Energy,
    /// The times of arcs, by the node left and the node reached.
    Time,
    /// A limit on the time of a route.
    TMax,
    /// Another name for a limit on the time of a route.
    MaxT,
    /// The reserve: the least level on arriving at a stop.
    MinQ,
    /// The least level on arriving at the end of a route.
    HomeQ,
}

/// A part of an entry of `css` or of `breakpoints_by_type`.
#[derive(Clone, Copy, Debug, PartialEq, Eq)]
pub enum Part {
    /// The node of a station.
    NodeId,
    /// The type of a station, or the type that a curve is for.
    TypeName,
    /// The times of a curve's breakpoints.
    Time,
    /// The charges of a curve's breakpoints.
    Charge,
    /// The time to plug in at a station of the type.
    Plug,
}

/// Where a value stands in an instance file: under `key`, there in the item number `i`, of that in
/// the part `part`, and there in the item number `j`. Items are numbered from 0, and what isn't
/// there is `None`: the energy of the arc from node 2 to node 3 stands under `energy_matrix` with
/// `i` 2, no part, and `j` 3.
#[derive(Clone, Copy, Debug, PartialEq, Eq)]
pub struct Place {
    pub key: Key,
    pub i: Option<usize>,
    pub part: Option<Part>,
    pub j: Option<usize>,
}

impl Key {
    /// The key as it stands in a file.
    pub fn name(self) -> &'static str
        ensures { result.now ≡ key_text self }
    {
        match self {
            Key::MaxQ => "max_q",
            Key::Css => "css",
            Key::Breaks => "breakpoints_by_type",
            Key::Service => "process_times",
            Key::Energy => "energy_matrix",
            Key::Time => "time_matrix",
            Key::TMax => "t_max",
            Key::MaxT => "max_t",
            Key::MinQ => "min_q",
            Key::HomeQ => "home_q",
        }
    }
}

impl Part {
    /// The part as a place is printed with it. It is the part's key in a file, but that a type may
    /// stand under `cs_type` too.
    pub fn name(self) -> &'static str
        ensures { result.now ≡ part_text self }
    {
        match self {
            Part::NodeId => "node_id",
            Part::TypeName => "type",
            Part::Time => "time",
            Part::Charge => "charge",
            Part::Plug => "plug_time",
        }
    }
}

impl Place {
    /// The place of the value under a key of the top object.
    pub fn at_key(key: Key) -> Place
        ensures { result ≡ at_key key }
    {
        Place {
            key,
            i: None,
            part: None,
            j: None,
        }
    }

    /// The place of an item of the array that stands at this place.
    pub fn item(self, number: usize) -> Place
        ensures { result ≡ item_of self number }
    {
        if self.i.is_none() {
            Place {
                i: Some(number),
                ..self
            }
        } else {
            Place {
                j: Some(number),
                ..self
            }
        }
    }

    /// The place of a part of the entry that stands at this place.
    pub fn part(self, part: Part) -> Place
        ensures { result ≡ part_of self part }
    {
        Place {
            part: Some(part),
            ..self
        }
    }
}
