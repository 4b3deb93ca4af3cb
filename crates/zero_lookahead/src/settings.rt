// What a run is given, but for its limit.
#[derive(Clone, Copy)]
pub struct Settings {
    pub alpha: f32,
    pub beta: f32,
    pub prior: f32,
    pub regularised: bool,
    pub tolerance: f32,
}
