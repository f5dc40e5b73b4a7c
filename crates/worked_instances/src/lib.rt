//! The texts of small instances that tests of several crates run, each for one point. Those of the
//! folder `examples` are the same texts.
#![tactic(auto)]

/// A depot, a customer (node 1) and a station (node 2). Without charging the way home is out of
/// reach.
pub const ONE_STATION: &str =
    r#"{"max_q":10,"css":[{"node_id":2,"cs_type":"fast"}],"breakpoints_by_type":[{"cs_type":"fast","time":[0,4,10],"charge":[0,8,10]}],"process_times":[0,0,0],"energy_matrix":[[0,6,3],[6,0,2],[5,2,0]],"time_matrix":[[0,10,8],[10,0,3],[8,3,0]]}"#;

/// The same with energies, the battery and charges times 10^8.
pub const FINE_UNITS: &str =
    r#"{"max_q":1000000000,"css":[{"node_id":2,"cs_type":"fast"}],"breakpoints_by_type":[{"cs_type":"fast","time":[0,4,10],"charge":[0,800000000,1000000000]}],"process_times":[0,0,0],"energy_matrix":[[0,600000000,300000000],[600000000,0,200000000],[500000000,200000000,0]],"time_matrix":[[0,10,8],[10,0,3],[8,3,0]]}"#;

/// One station with a time to plug in of 1.
pub const PLUG_TIME: &str =
    r#"{"max_q":10,"css":[{"node_id":2,"cs_type":"fast"}],"breakpoints_by_type":[{"cs_type":"fast","time":[0,4,10],"charge":[0,8,10],"plug_time":1}],"process_times":[0,0,0],"energy_matrix":[[0,6,3],[6,0,2],[5,2,0]],"time_matrix":[[0,10,8],[10,0,3],[8,3,0]]}"#;

/// One station with a reserve of 1 unit.
pub const RESERVE: &str =
    r#"{"max_q":10,"css":[{"node_id":2,"cs_type":"fast"}],"breakpoints_by_type":[{"cs_type":"fast","time":[0,4,10],"charge":[0,8,10]}],"process_times":[0,0,0],"energy_matrix":[[0,6,3],[6,0,2],[5,2,0]],"time_matrix":[[0,10,8],[10,0,3],[8,3,0]],"min_q":1}"#;

/// One station with a level at home of 5 units, the highest that can be had.
pub const HOME_LEVEL: &str =
    r#"{"max_q":10,"css":[{"node_id":2,"cs_type":"fast"}],"breakpoints_by_type":[{"cs_type":"fast","time":[0,4,10],"charge":[0,8,10]}],"process_times":[0,0,0],"energy_matrix":[[0,6,3],[6,0,2],[5,2,0]],"time_matrix":[[0,10,8],[10,0,3],[8,3,0]],"home_q":5}"#;

/// One station with a level at home of 6 units, which no plan of the route 0, 1, 0 has.
pub const HOME_LEVEL_TOO_HIGH: &str =
    r#"{"max_q":10,"css":[{"node_id":2,"cs_type":"fast"}],"breakpoints_by_type":[{"cs_type":"fast","time":[0,4,10],"charge":[0,8,10]}],"process_times":[0,0,0],"energy_matrix":[[0,6,3],[6,0,2],[5,2,0]],"time_matrix":[[0,10,8],[10,0,3],[8,3,0]],"home_q":6}"#;

/// One station with a time to plug in of 1, a reserve of 1 and a level at home of 5.
pub const LEAST_LEVELS: &str =
    r#"{"max_q":10,"css":[{"node_id":2,"cs_type":"fast"}],"breakpoints_by_type":[{"cs_type":"fast","time":[0,4,10],"charge":[0,8,10],"plug_time":1}],"process_times":[0,0,0],"energy_matrix":[[0,6,3],[6,0,2],[5,2,0]],"time_matrix":[[0,10,8],[10,0,3],[8,3,0]],"min_q":1,"home_q":5}"#;

/// A depot, a customer (node 1) and two stations, both of which have to be visited on each way.
pub const TWO_STATIONS: &str =
    r#"{"max_q":10,"css":[{"node_id":2,"cs_type":"fast"},{"node_id":3,"cs_type":"fast"}],"breakpoints_by_type":[{"cs_type":"fast","time":[0,4,10],"charge":[0,8,10]}],"process_times":[0,0,0,0],"energy_matrix":[[0,11,8,11],[11,0,11,4],[8,11,0,8],[11,4,8,0]],"time_matrix":[[0,11,8,11],[11,0,11,4],[8,11,0,8],[11,4,8,0]]}"#;

/// Two stations with a time to plug in of 1.
pub const TWO_PLUG_TIMES: &str =
    r#"{"max_q":10,"css":[{"node_id":2,"cs_type":"fast"},{"node_id":3,"cs_type":"fast"}],"breakpoints_by_type":[{"cs_type":"fast","time":[0,4,10],"charge":[0,8,10],"plug_time":1}],"process_times":[0,0,0,0],"energy_matrix":[[0,11,8,11],[11,0,11,4],[8,11,0,8],[11,4,8,0]],"time_matrix":[[0,11,8,11],[11,0,11,4],[8,11,0,8],[11,4,8,0]]}"#;

/// A depot and a customer; no station and no curve.
pub const NO_STATION: &str =
    r#"{"max_q":10,"css":[],"breakpoints_by_type":[],"process_times":[0,0],"energy_matrix":[[0,1],[1,0]],"time_matrix":[[0,4],[4,0]]}"#;

/// A depot and nothing else.
pub const DEPOT_ALONE: &str =
    r#"{"max_q":10,"css":[],"breakpoints_by_type":[],"process_times":[0],"energy_matrix":[[0]],"time_matrix":[[0]]}"#;

/// A depot and two customers.
pub const TWO_CUSTOMERS: &str =
    r#"{"max_q":10,"css":[],"breakpoints_by_type":[],"process_times":[0,0,0],"energy_matrix":[[0,1,1],[1,0,1],[1,1,0]],"time_matrix":[[0,4,4],[4,0,5],[4,5,0]]}"#;

/// A depot and three customers.
pub const THREE_CUSTOMERS: &str =
    r#"{"max_q":10,"css":[],"breakpoints_by_type":[],"process_times":[0,0,0,0],"energy_matrix":[[0,1,1,1],[1,0,1,1],[1,1,0,1],[1,1,1,0]],"time_matrix":[[0,4,4,4],[4,0,3,3],[4,3,0,3],[4,3,3,0]]}"#;
