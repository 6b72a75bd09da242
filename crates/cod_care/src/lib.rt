//! What a care worker does in a round: it merges and shrinks the logs of one segment after another, and rebuilds.
#![tactic(auto)]

ghost use Rattle.std.specs.Prelude.{◌≡◌, ◌<◌, ◌≤◌};
ghost use Rattle.cod_script.specs.Owed.{care_ask};

use cod_types::{Call, SegId};

/// The segment and the call of a worker's round, the first round being 0.
///
/// The workers share the segments: in one round each has one of its own, and the next round goes on with the next ones, from
/// the last to the first again. Even rounds merge. Of the odd ones each second rebuilds, where `repair` says that nodes may
/// be down, and all others tick.
pub fn next_job(worker: u32, workers: u32, round: u32, segments: u32, repair: bool) -> (SegId, Call)
    requires among { worker < workers }
    requires some { 1 ≤ segments }
    ensures job { record { segment = result.0.0; call = result.1 } ≡ care_ask worker workers segments repair round }
    ensures there { result.0.0 < segments }
{
    let turn = worker as u64 + round as u64 * workers as u64;
    let segment = (turn % segments as u64) as u32;
    let call = if round % 2 == 0 {
        Call::Merge
    } else if repair && round % 4 == 3 {
        Call::Rebuild
    } else {
        Call::Tick
    };
    (SegId(segment), call)
}

#[cfg(test)]
mod tests {
    use super::*;

    #[test]
    fn rounds_of_two_workers(rt: HostRuntime) {
        // Five segments: worker 1 of 2 comes to 1, 3, 0, 2.
        let (first, merge) = next_job(1, 2, 0, 5, true);
        assert!(rt; first.0 == 1 && matches!(merge, Call::Merge));
        let (second, tick) = next_job(1, 2, 1, 5, true);
        assert!(rt; second.0 == 3 && matches!(tick, Call::Tick));
        let (third, merge) = next_job(1, 2, 2, 5, true);
        assert!(rt; third.0 == 0 && matches!(merge, Call::Merge));
        let (fourth, rebuild) = next_job(1, 2, 3, 5, true);
        assert!(rt; fourth.0 == 2 && matches!(rebuild, Call::Rebuild));
        let (_, tick) = next_job(1, 2, 3, 5, false);
        assert!(rt; matches!(tick, Call::Tick));
        let (last, _) = next_job(u32::MAX - 1, u32::MAX, u32::MAX, u32::MAX, false);
        assert!(rt; last.0 == u32::MAX - 1);
    }
}
