//! Texts of SVG: bars, axes, marks and legends, from numbers.

ghost use Rattle.std.specs.Prelude.{◌≡◌, ◌^◌, ◌<◌, ◌≤◌, IfOk, length, string_bytes};
ghost use Rattle.page.specs.Svg.{axis_text, bar_of, bar_text, bars_until, group_text, groups_until, highest_of, legend_at, legend_key};
ghost use Rattle.page.specs.Svg.{legend_name, legend_text, mark_at, mark_text, marks_until, row_at_height, row_back, row_front, row_text};
ghost use Rattle.page.specs.Svg.{scaled, slot_x, sum_of};

use crate::tallies::at;
use std::alloc::{AllocError, Global};

/// How many frames of the first classes there are, where the counts of a slot begin at this cell.
fn sum_of(counts: &[usize], cell: usize, classes: usize) -> u128
    requires cell { cell < 2 ^ 32 }
    requires classes { classes < 2 ^ 16 }
    ensures sum { result ≡ sum_of counts.now cell classes }
    ensures small { result ≤ 2 ^ 80 }
{
    let mut sum: u128 = 0;
    'classes: for class in 0..classes {
        sum += at(counts, cell + class) as u128;
    }
    sum
}

/// The most frames of a slot, and 1 where there are none.
#[tactic(auto, unfolding(crate::specs::Svg::highest_of))]
pub(crate) fn highest_of(counts: &[usize], classes: usize, slots: usize) -> u128
    requires classes { classes < 2 ^ 15 }
    requires slots { slots < 2 ^ 15 }
    ensures most { result ≡ highest_of counts.now classes slots }
    ensures some { 1 ≤ result }
    ensures small { result ≤ 2 ^ 80 }
{
    let mut most: u128 = 1;
    'slots: for slot in 0..slots {
        most = most.max(sum_of(counts, slot * classes, classes));
    }
    most
}

/// The height of so many frames, where the most have this height.
pub(crate) fn scaled(height: u128, highest: u128, count: u128) -> u128
    requires height { height < 2 ^ 16 }
    requires some { 1 ≤ highest }
    requires highest { highest ≤ 2 ^ 80 }
    requires count { count ≤ 2 ^ 80 }
    ensures { result ≡ scaled height highest count }
{
    (count * height + (highest - 1)) / highest
}

/// A part of a slot's bar, from one height to another.
fn bar_text(alloc: Global, x: usize, low: u128, high: u128) -> Result<String, AllocError>
    ensures { IfOk result (λ text. string_bytes text ≡ bar_text x low high) }
{
    let height = high.saturating_sub(low);
    let y = 140u128.saturating_sub(high);
    if height == 0 {
        return Ok(String::new(alloc));
    }
    format!(in alloc; "<rect x=\"{x}\" y=\"{y}\" width=\"5\" height=\"{height}\"/>")
}

/// The part of a class in the bar of a slot.
fn bar_of(
    alloc: Global,
    counts: &[usize],
    classes: usize,
    highest: u128,
    class: usize,
    slot: usize,
) -> Result<String, AllocError>
    requires classes { classes < 2 ^ 15 }
    requires class { class < classes }
    requires slot { slot < 2 ^ 15 }
    requires some { 1 ≤ highest }
    requires highest { highest ≤ 2 ^ 80 }
    ensures { IfOk result (λ text. string_bytes text ≡ bar_of counts.now classes highest class slot) }
{
    let low = scaled(120, highest, sum_of(counts, slot * classes, class));
    let high = scaled(120, highest, sum_of(counts, slot * classes, class + 1));
    bar_text(alloc, 36 + slot * 6, low, high)
}

/// The parts of a class in the bars of the first slots.
#[tactic(auto, unfolding(crate::specs::Svg::bars_until))]
fn bars_of(
    alloc: Global,
    counts: &[usize],
    classes: usize,
    highest: u128,
    class: usize,
    count: usize,
) -> Result<String, AllocError>
    requires classes { classes < 2 ^ 15 }
    requires class { class < classes }
    requires count { count < 2 ^ 15 }
    requires some { 1 ≤ highest }
    requires highest { highest ≤ 2 ^ 80 }
    ensures { IfOk result (λ text. string_bytes text ≡ bars_until counts.now classes highest class count) }
{
    let mut text = String::new(alloc);
    'slots: for slot in 0..count {
        let bar = bar_of(alloc, counts, classes, highest, class, slot)?;
        text.push_str(bar.as_str())?;
    }
    Ok(text)
}

/// The parts of a class in the bars of all slots.
fn all_bars(
    alloc: Global,
    counts: &[usize],
    classes: usize,
    highest: u128,
    class: usize,
) -> Result<String, AllocError>
    requires classes { classes < 2 ^ 15 }
    requires class { class < classes }
    requires some { 1 ≤ highest }
    requires highest { highest ≤ 2 ^ 80 }
    ensures { IfOk result (λ text. string_bytes text ≡ bars_until counts.now classes highest class 60) }
{
    bars_of(alloc, counts, classes, highest, class, 60)
}

/// The parts of a class, drawn in its pattern.
#[tactic(auto, unfolding(crate::specs::Svg::group_text))]
fn group_text(alloc: Global, class: usize, bars: &str) -> Result<String, AllocError>
    ensures { IfOk result (λ text. string_bytes text ≡ group_text class bars.now) }
{
    format!(in alloc; "<g fill=\"url(#f{class})\">{bars}</g>\n")
}

/// The bars of all classes.
#[tactic(auto, unfolding(crate::specs::Svg::groups_until))]
pub(crate) fn groups_of(
    alloc: Global,
    counts: &[usize],
    classes: usize,
    highest: u128,
) -> Result<String, AllocError>
    requires classes { classes < 2 ^ 15 }
    requires some { 1 ≤ highest }
    requires highest { highest ≤ 2 ^ 80 }
    ensures { IfOk result (λ text. string_bytes text ≡ groups_until counts.now classes highest classes) }
{
    let mut text = String::new(alloc);
    'classes: for class in 0..classes {
        let bars = all_bars(alloc, counts, classes, highest, class)?;
        let group = group_text(alloc, class, bars.as_str())?;
        text.push_str(group.as_str())?;
    }
    Ok(text)
}

/// The scale of a plot.
#[tactic(auto, unfolding(crate::specs::Svg::axis_text))]
pub(crate) fn axis_text(
    alloc: Global,
    highest: u128,
    first: &str,
    last: &str,
) -> Result<String, AllocError>
    ensures { IfOk result (λ text. string_bytes text ≡ axis_text highest first.now last.now) }
{
    format!(in alloc;
        "<path class=\"axis\" d=\"M36 20H396M36 80H396M36 140H396\"/>\n\
         <text class=\"end\" x=\"33\" y=\"24\">{highest}</text><text class=\"end\" x=\"33\" y=\"144\">0</text>\n\
         <text x=\"36\" y=\"153\">{first} s</text><text class=\"end\" x=\"396\" y=\"153\">{last} s</text>\n"
    )
}

/// A mark with a number at the top of a slot.
#[tactic(auto, unfolding(crate::specs::Svg::mark_text))]
fn mark_text(alloc: Global, label: usize, x: usize) -> Result<String, AllocError>
    ensures { IfOk result (λ text. string_bytes text ≡ mark_text label x) }
{
    format!(in alloc;
        "<path class=\"mark\" d=\"M{x} 12V140\"/><text class=\"mid\" x=\"{x}\" y=\"9\">{label}</text>\n"
    )
}

/// Where a slot begins.
fn slot_x(slot: usize) -> usize
    ensures { result ≡ slot_x slot }
{
    36 + slot.min(59) * 6
}

/// The mark of a command, if the one before it is not in its slot.
fn mark_at(alloc: Global, slots: &[usize], place: usize) -> Result<String, AllocError>
    requires { place < length slots.now }
    ensures { IfOk result (λ text. string_bytes text ≡ mark_at slots.now place) }
{
    let slot = at(slots, place);
    if place == 0 {
        return mark_text(alloc, 1, slot_x(slot));
    }
    if slot == at(slots, place - 1) {
        return Ok(String::new(alloc));
    }
    mark_text(alloc, place + 1, slot_x(slot))
}

/// The marks of commands, by their slots.
pub(crate) fn marks_of(alloc: Global, slots: &[usize]) -> Result<String, AllocError>
    ensures { IfOk result (λ text. string_bytes text ≡ marks_until slots.now (length slots.now)) }
{
    let mut text = String::new(alloc);
    'commands: for place in 0..slots.len() {
        let mark = mark_at(alloc, slots, place)?;
        text.push_str(mark.as_str())?;
    }
    Ok(text)
}

/// The pattern of a class in a legend.
#[tactic(auto, unfolding(crate::specs::Svg::legend_key))]
fn legend_key(alloc: Global, class: usize, x: usize, y: usize) -> Result<String, AllocError>
    ensures { IfOk result (λ text. string_bytes text ≡ legend_key class x y) }
{
    format!(in alloc;
        "<rect class=\"key\" x=\"{x}\" y=\"{y}\" width=\"14\" height=\"9\" fill=\"url(#f{class}"
    )
}

/// The name of a class in a legend.
#[tactic(auto, unfolding(crate::specs::Svg::legend_name))]
fn legend_name(alloc: Global, x: usize, y: usize, label: &str) -> Result<String, AllocError>
    ensures { IfOk result (λ text. string_bytes text ≡ legend_name x y label.now) }
{
    format!(in alloc; ")\"/><text x=\"{x}\" y=\"{y}\">{label}</text>\n")
}

/// A class in a legend at this place.
fn legend_at(
    alloc: Global,
    class: usize,
    x: usize,
    y: usize,
    text_x: usize,
    text_y: usize,
    label: &str,
) -> Result<String, AllocError>
    ensures { IfOk result (λ text. string_bytes text ≡ legend_at class x y text_x text_y label.now) }
{
    let mut text = legend_key(alloc, class, x, y)?;
    let name = legend_name(alloc, text_x, text_y, label)?;
    text.push_str(name.as_str())?;
    Ok(text)
}

/// A class in a legend: its pattern and its name.
#[tactic(auto, unfolding(crate::specs::Svg::legend_text))]
pub(crate) fn legend_text(alloc: Global, class: usize, label: &str) -> Result<String, AllocError>
    requires { class < 2 ^ 16 }
    ensures { IfOk result (λ text. string_bytes text ≡ legend_text class label.now) }
{
    let column = class % 3 * 122;
    let line = class / 3 * 14;
    legend_at(
        alloc,
        class,
        36 + column,
        162 + line,
        54 + column,
        170 + line,
        label,
    )
}

/// A bar with a name at its left.
#[tactic(auto, unfolding(crate::specs::Svg::row_front))]
fn row_front(
    alloc: Global,
    y: usize,
    text_y: usize,
    label: &str,
    width: u128,
) -> Result<String, AllocError>
    ensures { IfOk result (λ text. string_bytes text ≡ row_front y text_y label.now width) }
{
    format!(in alloc;
        "<text class=\"end\" x=\"104\" y=\"{text_y}\">{label}</text><rect class=\"key\" x=\"108\" y=\"{y}\" width=\"{width}"
    )
}

/// The pattern of a bar, and a number at its right.
#[tactic(auto, unfolding(crate::specs::Svg::row_back))]
fn row_back(
    alloc: Global,
    text_y: usize,
    pattern: usize,
    after: u128,
    count: usize,
) -> Result<String, AllocError>
    ensures { IfOk result (λ text. string_bytes text ≡ row_back text_y pattern after count) }
{
    format!(in alloc;
        "\" height=\"10\" fill=\"url(#f{pattern})\"/><text x=\"{after}\" y=\"{text_y}\">{count}</text>\n"
    )
}

/// A bar with a name and a number at this height.
fn row_at_height(
    alloc: Global,
    y: usize,
    text_y: usize,
    pattern: usize,
    label: &str,
    width: u128,
    after: u128,
    count: usize,
) -> Result<String, AllocError>
    ensures { IfOk result (λ text. string_bytes text ≡ row_at_height y text_y pattern label.now width after count) }
{
    let mut text = row_front(alloc, y, text_y, label, width)?;
    let back = row_back(alloc, text_y, pattern, after, count)?;
    text.push_str(back.as_str())?;
    Ok(text)
}

/// The bar of a backend, with its name at its left and the number of its frames at its right.
#[tactic(auto, unfolding(crate::specs::Svg::row_text))]
pub(crate) fn row_text(
    alloc: Global,
    place: usize,
    pattern: usize,
    label: &str,
    width: u128,
    count: usize,
) -> Result<String, AllocError>
    requires place { place < 2 ^ 16 }
    requires width { width < 2 ^ 100 }
    ensures { IfOk result (λ text. string_bytes text ≡ row_text place pattern label.now width count) }
{
    let down = place * 14;
    row_at_height(
        alloc,
        4 + down,
        12 + down,
        pattern,
        label,
        width,
        112 + width,
        count,
    )
}
