//! What calls work with.
use cod_board::{BoardSeat, SharedBoard};
use cod_client::Client;
use cod_place::{PoolSeat, SharedPools};
use cod_repair::Bench;
use std::alloc::Global;

/// What all callers share beside the segments: the board and the pools of their nodes, and the shelf with their regions.
#[derive(Drop)]
pub struct Shared<H> {
    pub alloc: Global,
    pub board: SharedBoard,
    pub pools: SharedPools,
    pub shelf: H,
}

/// What a caller has to itself: its client, its clock, a bench of the segments' geometry, and its seats of the board and the
/// pools. Its later entries have stamps above its clock.
#[derive(Drop)]
pub struct Desk {
    pub client: Client,
    pub clock: u64,
    pub bench: Bench,
    pub board: BoardSeat,
    pub pools: PoolSeat,
}
