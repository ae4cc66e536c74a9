use bsp_pool::Gate;
use std::sync::atomic::AtomicU64;
use std::sync::atomic::Ordering::SeqCst;
use std::thread;

/// A gate at which the jobs wait until so many of them were called, or give up after so many looks.
#[derive(Drop)]
pub(crate) struct Meeting {
    pub(crate) together: u64,
    pub(crate) looks: u32,
    /// How many jobs were called, and the sum of their numbers.
    pub(crate) called: AtomicU64,
    pub(crate) sum: AtomicU64,
    pub(crate) gave_up: AtomicU64,
}

impl Meeting {
    pub(crate) fn new(together: u64, looks: u32) -> Meeting {
        Meeting {
            together,
            looks,
            called: AtomicU64::new(0),
            sum: AtomicU64::new(0),
            gave_up: AtomicU64::new(0),
        }
    }

    /// Whether so many jobs were called, whose numbers have this sum, and none of them gave up.
    pub(crate) fn has_called(&self, called: u64, sum: u64) -> bool {
        self.called.load(SeqCst) == called
            && self.sum.load(SeqCst) == sum
            && self.gave_up.load(SeqCst) == 0
    }
}

impl Gate for Meeting {
    fn pass(&self, job: usize) {
        self.called.fetch_add(1, SeqCst);
        self.sum.fetch_add(job as u64, SeqCst);
        for _look in 0..self.looks {
            if self.called.load(SeqCst) >= self.together {
                return;
            }
            thread::yield_now();
        }
        self.gave_up.fetch_add(1, SeqCst);
    }
}
