//! The search: vertices out, edges turned, vertices moved, ends of edges joined, until that gains little; and beyond the
//! error and back.

use crate::ground::Ground;
use crate::network::Network;
use crate::put::put_all;
use crate::remove::Worker;
use std::alloc::{AllocError, Global};

/// A round that takes fewer triangles away than one of this many is the last.
const LEAST_PART: u32 = 500;

/// How far beyond the error each of the kicks goes, in hundredths of it.
const BEYOND: [u32; 8] = [20, 15, 10, 5, 20, 15, 10, 5];

/// Looks for fewer triangles, with an effort of 1 to 9: up to 3 so many rounds, above that kicks beyond the error and
/// back, eight at 9. The network has its partners (`Network::join`), and no triangle of it is too far off.
///
/// Cost (not proved): some 55 readings of each grid point for the first round, 20 for each further one, 150 for a kick.
pub fn search(
    alloc: Global,
    network: &mut Network,
    ground: &Ground<'_>,
    effort: u32,
) -> Result<(), AllocError> {
    let mut worker = Worker::new(alloc)?;
    let rounds = effort.min(4);
    worker.cost_all(network, ground);
    worker.settle(alloc, network, ground, rounds)?;
    let kicks = match effort {
        0..=3 => 0,
        4 => 1,
        5 => 2,
        6 => 3,
        7 => 4,
        8 => 6,
        _ => 8,
    };
    for percent in BEYOND.iter().take(kicks) {
        let kept = network.copy()?;
        worker.kick(alloc, network, ground, *percent)?;
        if network.count > kept.count {
            *network = kept;
        }
    }
    Ok(())
}

impl Worker {
    /// Takes vertices out, and then makes rounds while they gain.
    fn settle(
        &mut self,
        alloc: Global,
        network: &mut Network,
        ground: &Ground<'_>,
        rounds: u32,
    ) -> Result<(), AllocError> {
        self.remove_all(alloc, network, ground)?;
        for _ in 0..rounds {
            let count = network.count;
            self.flip_all(network, ground);
            self.move_all(network, ground);
            self.flip_all(network, ground);
            self.join_all(network, ground);
            self.remove_all(alloc, network, ground)?;
            if count.wrapping_sub(network.count) < count / LEAST_PART {
                break;
            }
        }
        Ok(())
    }

    /// Settles at a greater error, and then comes back: what is too far off is mended by turns and moves as far as it
    /// can be, and then by vertices put in.
    fn kick(
        &mut self,
        alloc: Global,
        network: &mut Network,
        ground: &Ground<'_>,
        percent: u32,
    ) -> Result<(), AllocError> {
        let most = u64::from(ground.thousandths).wrapping_mul(u64::from(percent).wrapping_add(100))
            / 100;
        let beyond = Ground {
            thousandths: most.min(0xffff_ffff) as u32,
            ..*ground
        };
        self.cost_all(network, &beyond);
        self.settle(alloc, network, &beyond, 2)?;
        self.cost_all(network, ground);
        self.flip_all(network, ground);
        self.move_all(network, ground);
        put_all(alloc, network, ground)?;
        self.settle(alloc, network, ground, 4)
    }
}
