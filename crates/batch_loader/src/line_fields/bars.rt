//! The bars of a line, one after the other.
ghost use Rattle.std.specs.Prelude.{◌≡◌, ◌≢◌, ◌+◌, ◌-◌, ◌<◌, ◌≤◌, ◌==◌, ℕ, List, MatchOption, length, map};
ghost use Rattle.std.specs.Int.{bit_at};
ghost use Rattle.std.specs.Simd.Lanes.{mask_l};
ghost use Rattle.batch_loader.specs.Bars.{AreBarsAfter, EndsPart, bar_bit};

use std::simd::prelude::*;

/// How many bytes are looked at together.
const WIDTH: usize = 64;

/// Some bytes of a text that follow each other, with a bit for each that is a bar still to come.
#[derive(Clone, Copy, Drop)]
pub struct Window {
    first: usize,
    bars: u64,
}

/// The first bytes of a text, of which all bars are still to come.
#[inline(always)]
pub fn first_window(text: &[u8]) -> Window
    ensures { AreBarsAfter text.now 0 result.first result.bars }
{
    Window {
        first: 0,
        bars: bars_at(text, 0),
    }
}

/// The place of the first bar from a place on, or the length of the text, and the window of the bars after it; or
/// nothing for a place past the end.
#[inline(always)]
pub fn next_end(text: &[u8], from: usize, window: Window) -> Option<(usize, Window)>
    requires bars { from ≤ length text.now → AreBarsAfter text.now from window.first window.bars }
    requires past { length text.now < from → window.bars ≡ 0 }
    ensures { MatchOption result (length text.now < from)
        (λ next. EndsPart text.now from next.0 next.1.first next.1.bars) }
{
    // Mostly the next bar is in the window at hand.
    if window.bars != 0 {
        let (bit, after) = lowest_bar(window);
        return Some((window.first + bit, after));
    }
    if from > text.len() {
        return None;
    }
    let window = later_window(text, from, window);
    if window.bars == 0 {
        return Some((text.len(), window));
    }
    let (bit, after) = lowest_bar(window);
    Some((window.first + bit, after))
}

/// The first bar of a window, by its place in the window, and the window of those after it.
#[inline(always)]
fn lowest_bar(window: Window) -> (usize, Window)
    requires { window.bars ≢ 0 }
    ensures { (text : List ℕ) (from : ℕ) → AreBarsAfter text from window.first window.bars
        → EndsPart text from (window.first + result.0) result.1.first result.1.bars }
{
    let bit = lowest(window.bars);
    let after = Window {
        first: window.first,
        bars: without(window.bars, bit),
    };
    (bit, after)
}

/// The first window with a bar from a place on, or the last window.
#[inline(never)]
fn later_window(text: &[u8], from: usize, window: Window) -> Window
    requires bars { AreBarsAfter text.now from window.first window.bars }
    ensures bars { AreBarsAfter text.now from result.first result.bars }
    ensures none { result.bars ≡ 0 → length text.now ≤ result.first + 64 }
{
    let mut window = window;
    while window.bars == 0 && window.first < text.len() && text.len() - window.first > WIDTH {
        let first = window.first + WIDTH;
        let bars = bars_at(text, first);
        window = Window { first, bars };
    }
    window
}

/// A bit for each of the bytes from a place on that is a bar.
#[inline(always)]
fn bars_at(text: &[u8], first: usize) -> u64
    requires { first ≤ length text.now }
    ensures { (k : ℕ) → k < 64 → bit_at result k ≡ bar_bit text.now (first + k) }
{
    let left = text.len() - first;
    if left >= WIDTH {
        return bars_of_window(text, first);
    }
    if left > 0 && text.len() >= WIDTH {
        // The last window of the text, less the bytes before the place.
        let before = WIDTH - left;
        return shifted_down(bars_of_window(text, first - before), before);
    }
    bars_of_few(text, first)
}

/// The same where so many bytes follow.
#[inline(always)]
fn bars_of_window(text: &[u8], first: usize) -> u64
    requires { first + 64 ≤ length text.now }
    ensures { (k : ℕ) → k < 64 → bit_at result k ≡ bar_bit text.now (first + k) }
{
    bars_of_lanes(u8x64::from_slice(&text[first..]))
}

/// A bit for each lane that is a bar.
#[inline(always)]
fn bars_of_lanes(lanes: u8x64) -> u64
    requires { length lanes ≡ 64 }
    ensures { result ≡ mask_l (map (λ byte. byte == 124) lanes) }
{
    lanes.simd_eq(u8x64::splat(b'|')).to_bitmask()
}

/// The same where fewer bytes follow.
fn bars_of_few(text: &[u8], first: usize) -> u64
    requires within { first ≤ length text.now }
    requires few { length text.now - first < 64 }
    ensures { (k : ℕ) → k < 64 → bit_at result k ≡ bar_bit text.now (first + k) }
{
    let mut bars = 0u64;
    for place in first..text.len() {
        if text[place] == b'|' {
            bars = with_bit(bars, place - first);
        }
    }
    bars
}

#[inline(always)]
fn lowest(bars: u64) -> usize
    requires { bars ≢ 0 }
    ensures bound { result < 64 }
    ensures set { bit_at bars result ≡ 1 }
    ensures below { (k : ℕ) → k < result → bit_at bars k ≡ 0 }
{
    bars.trailing_zeros() as usize
}

#[inline(always)]
fn without(bars: u64, bit: usize) -> u64
    requires { bit < 64 }
    ensures same { bit_at result bit ≡ 0 }
    ensures others { (k : ℕ) → k < 64 → k ≢ bit → bit_at result k ≡ bit_at bars k }
{
    bars & !(1 << bit)
}

fn with_bit(bars: u64, bit: usize) -> u64
    requires { bit < 64 }
    ensures same { bit_at result bit ≡ 1 }
    ensures others { (k : ℕ) → k ≢ bit → bit_at result k ≡ bit_at bars k }
{
    bars | (1 << bit)
}

#[inline(always)]
fn shifted_down(bars: u64, by: usize) -> u64
    requires { by < 64 }
    ensures { (k : ℕ) → bit_at result k ≡ bit_at bars (by + k) }
{
    bars >> by
}
