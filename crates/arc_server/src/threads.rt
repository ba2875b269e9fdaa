// Whether the system makes a thread for each line and each desk that is to be served.
use std::alloc::Global;
use std::sync::Arc;
use std::sync::atomic::{AtomicBool, Ordering};
use std::thread::{JoinHandle, Threads};
use std::time::Duration;
use std::{thread, time};

// How often a thread looks whether all were made, a millisecond after each other, until it ends anyway.
const LOOKS: u32 = 60_000;

/// Whether the system makes so many threads beside this one. They stand all at once, and have ended when this returns.
pub(crate) fn can_make<T: Threads, C: time::Clock + Copy + Send + 'static>(
    rt: &T,
    clock: C,
    alloc: Global,
    count: usize,
) -> bool {
    let Ok(is_over) = Arc::new(alloc, AtomicBool::new(false)) else {
        return false;
    };
    let mut made = Vec::new(alloc);
    let mut is_refused = false;
    for _ in 0..count {
        is_refused = is_refused || !make(rt, clock, &is_over, &mut made);
    }
    is_over.store(true, Ordering::SeqCst);
    end_all(rt, made);
    !is_refused
}

// Makes one more thread, which stands until all is over. Whether that was done.
fn make<T: Threads, C: time::Clock + Copy + Send + 'static>(
    rt: &T,
    clock: C,
    is_over: &Arc<AtomicBool, Global>,
    made: &mut Vec<JoinHandle<()>>,
) -> bool {
    let Ok(seen) = Arc::try_clone(is_over) else {
        return false;
    };
    match thread::spawn(rt, move || stand(clock, &seen)) {
        Ok(handle) => made.push(handle).is_ok(),
        Err(_) => false,
    }
}

// Waits until all is over.
fn stand<C: time::Clock + Copy>(clock: C, is_over: &AtomicBool) {
    for _ in 0..LOOKS {
        if is_over.load(Ordering::SeqCst) {
            return;
        }
        thread::sleep(&clock, Duration::from_millis(1));
    }
}

// Waits for the end of each.
fn end_all<T: Threads>(rt: &T, made: Vec<JoinHandle<()>>) {
    for handle in made {
        handle.join(rt);
    }
}
