use broker_link::Place;
use rest_calls::Settings;

/// What is kept of a consumer: its partitions by topic and number, the place among them at which
/// the next walk begins, whether rows were read since the last commit, and the moment of last use.
#[derive(Debug, Drop)]
pub struct Consumer {
    pub settings: Settings,
    pub assignment: Vec<Place>,
    pub rotation: usize,
    pub unsaved: bool,
    pub last_use: u64,
}
