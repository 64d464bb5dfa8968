// What a run gives.
use piv_model::{ApiAnswer, History};

/// What a run of a scene gives: the answers of each script, and the history of each card, in their order.
#[derive(Drop)]
pub struct RunOut {
    pub answers: Vec<Vec<ApiAnswer>>,
    pub cards: Vec<History>,
}
