//! Many follow one body while one loads it, in threads: each gets every byte, however they come and whoever runs first.
use crate::loading::{Body, How, Unmade, load};
use acng_base::{CachePath, MemoryLink};
use acng_grow::{Asked, FollowStop, Followed, Sending, Shared, Shown, await_head, follow};
use acng_head::Label;
use std::alloc::Global;
use std::process::Abort;
use std::sync::Wait;
use std::sync::atomic::{AtomicU64, Ordering};
use std::test::Fail;
use std::thread;
use std::thread::Threads;

// What a herd of followers is told: the body that is asked for, the text that it is to have, and how it is loaded.
#[derive(Drop)]
struct Herd {
    asked: Asked,
    text: Vec<u8>,
    how: How,
    /// How many have got it.
    served: AtomicU64,
}

// Follows the body from its first byte on, and counts where the link has the text and the sending ended as the load did.
fn graze<R: Wait>(rt: &R, alloc: Global, body: &Body, herd: &Herd) {
    let look = await_head(rt, body, &herd.asked);
    let Some(Label::Fetched { first, last }) = look.label else {
        return;
    };
    let label = Label::Fetched { first, last };
    let Ok(mut client) = MemoryLink::new(alloc, b"", 200_000, 1000, &[]) else {
        return;
    };
    let followed = follow(
        rt,
        body,
        &herd.asked,
        label,
        0,
        None,
        Sending::Length,
        &mut client,
    );
    let text = herd.text.as_slice();
    if client.written() == text
        && followed.sent == text.len() as u64
        && ends(&followed, herd.how.whole)
    {
        herd.served.fetch_add(1, Ordering::SeqCst);
    }
}

// Whether it ended whole, or because the answer ended early.
fn ends<Q>(followed: &Followed<Q>, whole: bool) -> bool {
    match &followed.stop {
        FollowStop::Whole => whole,
        FollowStop::Cut(Shown::Early { attempt }) => !whole && *attempt == 3,
        _ => false,
    }
}

// Lets so many followers loose on a body while it is loaded.
fn drive<R: Threads + Wait + Abort + Sync>(
    rt: &R,
    alloc: Global,
    body: &Body,
    herd: &Herd,
    followers: u64,
) {
    thread::scope(thread::scope_env(), rt, |scope| {
        for _ in 0..followers {
            let started = scope.spawn(move || graze(rt, alloc, body, herd));
            assert!(rt; started.is_ok());
        }
        let loaded = load(rt, alloc, body, herd.text.as_slice(), herd.how);
        assert!(rt; loaded.is_ok());
    });
}

// How many of so many followers get all of a text while it is loaded.
fn served<R: Threads + Wait + Abort + Sync>(
    rt: &R,
    alloc: Global,
    followers: u64,
    text: &[u8],
    how: How,
) -> Result<u64, Unmade> {
    let Ok(text) = Vec::from_slice(alloc, text) else {
        return Err(Unmade::Memory);
    };
    let herd = Herd {
        asked: Asked {
            path: CachePath::read(alloc, b"h/a")?,
            first_try: 3,
            old: None,
        },
        text,
        how,
        served: AtomicU64::new(0),
    };
    let body = Shared::new(alloc, CachePath::read(alloc, b"h/a")?)?;
    drive(rt, alloc, &*body, &herd, followers);
    Ok(herd.served.load(Ordering::SeqCst))
}

#[test]
fn each_of_many_followers_gets_every_byte(rt: HostRuntime) -> Result<(), Fail> {
    let alloc = rt.alloc();
    let mut text = Vec::new(alloc);
    for at in 0u32..70_000 {
        text.push((at % 251) as u8)?;
    }
    for (piece, len) in [(1, 600), (7, 7_000), (4096, 70_000)] {
        let how = How { piece, whole: true };
        let text = text.as_slice().get(..len).unwrap_or(b"");
        assert!(rt; text.len() == len);
        let served = served(&rt, alloc, 32, text, how);
        assert!(rt; matches!(served, Ok(32)), "pieces of {piece}");
    }
    Ok(())
}

#[test]
fn a_body_that_breaks_off_is_the_same_for_each_follower(rt: HostRuntime) -> Result<(), Fail> {
    let text = b"0123456789abcdefghijklmnopqrstuvwxyzABCDEFGHIJKLMNOPQRSTUVWXYZ+-";
    for piece in [1, 7, 4096] {
        for len in 0..=64 {
            let how = How {
                piece,
                whole: false,
            };
            let text = text.get(..len).unwrap_or(b"");
            assert!(rt; text.len() == len);
            let served = served(&rt, rt.alloc(), 4, text, how);
            assert!(rt; matches!(served, Ok(4)), "{len} bytes in pieces of {piece}");
        }
    }
    Ok(())
}
