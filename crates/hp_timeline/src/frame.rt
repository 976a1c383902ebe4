//! What stands round the lanes.

ghost use Rattle.std.specs.Prelude.{◌≡◌, ◌<◌, OnOk};
ghost use Rattle.hp_model.specs.Processors.{is_present};
ghost use Rattle.hp_text.specs.Appends.{Appends};
ghost use Rattle.hp_timeline.specs.Sheet.{HasFewClients};
ghost use Rattle.hp_timeline.specs.Frame.{size_text, lane_style, span_style, mark_style, range_text, heading_text, mark_legend, span_legend, tick_count as tick_count_of, tenth as tenth_of, tick_line, tick_name, tick_text, ticks_text, lane_box, absence, lane_name, lane_text, seat_text, opening_text, lanes_text, frame_text};

use crate::sheet::{Sheet, lane_top};
use crate::text::{append, append_before, append_two, append_two_before, append_with};
use crate::window::Window;
use hp_event::Head;
use std::alloc::AllocError;

/// Appends the beginning of the file: the size of the sheet.
#[tactic(auto, unfolding(crate::specs::Frame::size_text))]
fn append_size(out: &mut Vec<u8>, wide: usize, high: usize) -> Result<(), AllocError>
    ensures { OnOk result (Appends out.old out.new (size_text wide high)) }
{
    append_with(
        out,
        b"<svg xmlns='http://www.w3.org/2000/svg' width='",
        wide / 3,
    )?;
    append_with(out, b"' height='", high / 3)?;
    append_with(out, b"' viewBox='0 0 ", wide)?;
    append_with(out, b" ", high)?;
    append(out, b"' font-family='sans-serif' font-size='33'>\n")
}

/// Appends the colours of the lanes.
#[tactic(auto, unfolding(crate::specs::Frame::lane_style))]
fn append_lane_style(out: &mut Vec<u8>) -> Result<(), AllocError>
    ensures { OnOk result (Appends out.old out.new lane_style) }
{
    append(
        out,
        b"<style>text{fill:#333}.end{text-anchor:end;font-weight:bold}.small{fill:#777;font-size:27px}",
    )?;
    append(
        out,
        b".box{fill:#fafafa;stroke:#ddd;stroke-width:3}.tick{stroke:#e4e4e4;stroke-width:3}",
    )?;
    append(
        out,
        b".half{stroke:#bbb;stroke-width:3;stroke-dasharray:9 9}",
    )?;
    append(out, b".track{fill:none;stroke:#0072b2;stroke-width:5}")
}

/// Appends the colours of what lasts.
#[tactic(auto, unfolding(crate::specs::Frame::span_style))]
fn append_span_style(out: &mut Vec<u8>) -> Result<(), AllocError>
    ensures { OnOk result (Appends out.old out.new span_style) }
{
    append(
        out,
        b".walk.ok{fill:#d5eee4}.walk.fault{fill:#f8ddc9}.walk.stuck{fill:#ecd3e2}.walk.going{fill:#fdf6c9}",
    )?;
    append(
        out,
        b".bar{stroke:#777;stroke-width:3}.bar.ok{fill:#9fd8c4}.bar.fault{fill:#f0b48b}",
    )?;
    append(
        out,
        b".bar.refused{fill:#ffd27f}.bar.stuck{fill:#dba6c5}.bar.full{fill:#ccc}.bar.going{fill:#fff}",
    )?;
    append(out, b".section{fill:#56b4e9}")
}

/// Appends the colours of marks, and the sheet's own.
#[tactic(auto, unfolding(crate::specs::Frame::mark_style))]
fn append_mark_style(out: &mut Vec<u8>) -> Result<(), AllocError>
    ensures { OnOk result (Appends out.old out.new mark_style) }
{
    append(
        out,
        b"path.ok{fill:#009e73;stroke:#006b4e}path.fault{fill:#d55e00;stroke:#8a3d00}",
    )?;
    append(
        out,
        b"path.overruled{fill:#f0e442;stroke:#7a7400}path.injected{fill:#fff;stroke:#d55e00}",
    )?;
    append(
        out,
        b"path.empty,path.presumed{fill:#fff;stroke:#888}path{stroke-width:3}</style>\n",
    )?;
    append(out, b"<rect width='100%' height='100%' fill='#fff'/>\n")
}

/// Appends the numbers of the first event that is shown and of the last, if one is.
#[tactic(auto, unfolding(crate::specs::Frame::range_text))]
fn append_range(out: &mut Vec<u8>, window: Window) -> Result<(), AllocError>
    ensures { OnOk result (Appends out.old out.new (range_text window)) }
{
    if window.before == window.until {
        return append(out, b"none");
    }
    append_two(
        out,
        b"",
        window.before as usize + 1,
        b" to ",
        window.until as usize,
    )
}

/// Appends the heading: how many processors there are, and which events are shown.
#[tactic(auto, unfolding(crate::specs::Frame::heading_text))]
fn append_heading(out: &mut Vec<u8>, sheet: &Sheet, many: usize) -> Result<(), AllocError>
    ensures { OnOk result (Appends out.old out.new (heading_text sheet.now many)) }
{
    append_with(
        out,
        b"<text x='450' y='60' font-size='42' font-weight='bold'>processors: ",
        sheet.possible as usize,
    )?;
    append(out, b", events: ")?;
    append_range(out, sheet.window)?;
    append_with(out, b" of ", many)?;
    append(out, b"</text>\n")
}

/// Appends what the shapes of entries mean.
#[tactic(auto, unfolding(crate::specs::Frame::mark_legend))]
fn append_mark_legend(out: &mut Vec<u8>) -> Result<(), AllocError>
    ensures { OnOk result (Appends out.old out.new mark_legend) }
{
    append(
        out,
        b"<path class='ok' d='M450 108m0-12l12 24h-24z'/><text x='474' y='120'>startup</text>",
    )?;
    append(
        out,
        b"<path class='ok' d='M660 108m0 12l12-24h-24z'/><text x='684' y='120'>teardown</text>",
    )?;
    append(
        out,
        b"<path class='fault' d='M900 108m0-12l12 24h-24z'/><text x='924' y='120'>fault</text>",
    )?;
    append(
        out,
        b"<path class='overruled' d='M1050 108m0-12l12 24h-24z'/><text x='1074' y='120'>overruled</text>",
    )?;
    append(
        out,
        b"<path class='injected' d='M1290 108m0-12l12 24h-24z'/><text x='1314' y='120'>injected</text>",
    )?;
    append(
        out,
        b"<path class='empty' d='M1500 108m0-12l12 24h-24z'/><text x='1524' y='120'>not called</text>",
    )
}

/// Appends what the colours of walks and of bars mean.
#[tactic(auto, unfolding(crate::specs::Frame::span_legend))]
fn append_span_legend(out: &mut Vec<u8>) -> Result<(), AllocError>
    ensures { OnOk result (Appends out.old out.new span_legend) }
{
    append(
        out,
        b"<path class='bar ok' d='M1725 93h36v30h-36z'/><text x='1773' y='120'>ok</text>",
    )?;
    append(
        out,
        b"<path class='bar fault' d='M1845 93h36v30h-36z'/><text x='1893' y='120'>fault</text>",
    )?;
    append(
        out,
        b"<path class='bar stuck' d='M1995 93h36v30h-36z'/><text x='2043' y='120'>stuck</text>",
    )?;
    append(
        out,
        b"<path class='bar refused' d='M2160 93h36v30h-36z'/><text x='2208' y='120'>refused</text>",
    )?;
    append(
        out,
        b"<path class='bar going' d='M2355 93h36v30h-36z'/><text x='2403' y='120'>in flight</text>",
    )?;
    append(
        out,
        b"<path class='bar full' d='M2565 93h36v30h-36z'/><text x='2613' y='120'>full</text>",
    )?;
    append(out, b"\n")
}

/// Appends what stands above the lanes.
#[tactic(auto, unfolding(crate::specs::Frame::opening_text))]
fn append_opening(out: &mut Vec<u8>, sheet: &Sheet, many: usize) -> Result<(), AllocError>
    requires { HasFewClients sheet.now }
    ensures { OnOk result (Appends out.old out.new (opening_text sheet.now many)) }
{
    append_size(out, sheet.window.width(), sheet.bottom() + 90)?;
    append_lane_style(out)?;
    append_span_style(out)?;
    append_mark_style(out)?;
    append_heading(out, sheet, many)?;
    append_mark_legend(out)?;
    append_span_legend(out)
}

/// Appends the line at the event of a number.
#[tactic(auto, unfolding(crate::specs::Frame::tick_line))]
fn append_tick_line(out: &mut Vec<u8>, sheet: &Sheet, number: u32) -> Result<(), AllocError>
    requires { HasFewClients sheet.now }
    ensures { OnOk result (Appends out.old out.new (tick_line sheet.now number)) }
{
    let at = sheet.window.middle(number.saturating_sub(1));
    let tick = b"<path class='tick' d='M";
    append_two_before(out, tick, at, b" 150V", sheet.bottom(), b"'/>")
}

/// Appends the number below it.
#[tactic(auto, unfolding(crate::specs::Frame::tick_name))]
fn append_tick_name(out: &mut Vec<u8>, sheet: &Sheet, number: u32) -> Result<(), AllocError>
    requires { HasFewClients sheet.now }
    ensures { OnOk result (Appends out.old out.new (tick_name sheet.now number)) }
{
    let at = sheet.window.middle(number.saturating_sub(1));
    let name = b"<text class='small' text-anchor='middle' x='";
    append_two_before(out, name, at, b"' y='", sheet.bottom() + 45, b"'>")?;
    append_before(out, number as usize, b"</text>\n")
}

/// Appends the line at the event of a number, and the number below it.
#[tactic(auto, unfolding(crate::specs::Frame::tick_text))]
fn append_tick(out: &mut Vec<u8>, sheet: &Sheet, number: u32) -> Result<(), AllocError>
    requires { HasFewClients sheet.now }
    ensures { OnOk result (Appends out.old out.new (tick_text sheet.now number)) }
{
    append_tick_line(out, sheet, number)?;
    append_tick_name(out, sheet, number)
}

/// How many tenth numbers a window has.
fn tick_count(window: Window) -> u32
    ensures { result ≡ tick_count_of window }
{
    (window.until / 10).saturating_sub(window.before / 10)
}

/// One of them.
fn tenth(window: Window, index: u32) -> u32
    requires { index < tick_count_of window }
    ensures { result ≡ tenth_of window index }
{
    10 * (window.before / 10 + 1 + index)
}

/// Appends the tenth numbers of the window.
#[tactic(auto, unfolding(crate::specs::Frame::ticks_text))]
fn append_ticks(out: &mut Vec<u8>, sheet: &Sheet) -> Result<(), AllocError>
    requires { HasFewClients sheet.now }
    ensures { OnOk result (Appends out.old out.new (ticks_text sheet.now)) }
{
    for index in 0..tick_count(sheet.window) {
        append_tick(out, sheet, tenth(sheet.window, index))?;
    }
    Ok(())
}

/// Appends the box of a lane, and its line at the first state that is online.
#[tactic(auto, unfolding(crate::specs::Frame::lane_box))]
fn append_lane_box(out: &mut Vec<u8>, window: Window, cpu: u32) -> Result<(), AllocError>
    ensures { OnOk result (Appends out.old out.new (lane_box window cpu)) }
{
    append_with(out, b"<g transform='translate(0 ", lane_top(cpu))?;
    append_with(out, b")'><path class='box' d='M450 0h", window.lane_width())?;
    append_with(
        out,
        b"v220H450z'/><path class='half' d='M450 109h",
        window.lane_width(),
    )?;
    append(out, b"'/>")
}

/// Appends that a processor is absent, where it is.
fn append_absence(out: &mut Vec<u8>, head: &Head, cpu: u32) -> Result<(), AllocError>
    ensures { OnOk result (Appends out.old out.new (absence (is_present head.now cpu))) }
{
    if head.is_present(cpu) {
        return Ok(());
    }
    append(out, b"<text class='small' x='474' y='120'>absent</text>")
}

/// Appends the name of a lane and its scale.
#[tactic(auto, unfolding(crate::specs::Frame::lane_name))]
fn append_lane_name(out: &mut Vec<u8>, head: &Head, cpu: u32) -> Result<(), AllocError>
    ensures { OnOk result (Appends out.old out.new (lane_name head.now cpu)) }
{
    append_with(out, b"<text class='end' x='348' y='120'>cpu ", cpu as usize)?;
    append(
        out,
        b"</text><text class='small' x='372' y='21'>200</text><text class='small' x='372' y='119'>101</text>",
    )?;
    append(out, b"<text class='small' x='402' y='217'>0</text>")?;
    append_absence(out, head, cpu)?;
    append(out, b"</g>\n")
}

/// Appends a lane.
#[tactic(auto, unfolding(crate::specs::Frame::lane_text))]
fn append_lane(out: &mut Vec<u8>, head: &Head, window: Window, cpu: u32) -> Result<(), AllocError>
    ensures { OnOk result (Appends out.old out.new (lane_text head.now window cpu)) }
{
    append_lane_box(out, window, cpu)?;
    append_lane_name(out, head, cpu)
}

/// Appends the name of a seat's lane.
#[tactic(auto, unfolding(crate::specs::Frame::seat_text))]
fn append_seat(out: &mut Vec<u8>, sheet: &Sheet, seat: u32) -> Result<(), AllocError>
    requires { HasFewClients sheet.now }
    ensures { OnOk result (Appends out.old out.new (seat_text sheet.now seat)) }
{
    append_with(
        out,
        b"<text class='end' x='348' y='",
        sheet.seat_top(seat) + 63,
    )?;
    append_with(out, b"'>seat ", seat as usize)?;
    append(out, b"</text>\n")
}

/// Appends the lanes of the processors and the names of those of the seats.
#[tactic(auto, unfolding(crate::specs::Frame::lanes_text))]
fn append_lanes(out: &mut Vec<u8>, head: &Head, sheet: &Sheet) -> Result<(), AllocError>
    requires { HasFewClients sheet.now }
    ensures { OnOk result (Appends out.old out.new (lanes_text head.now sheet.now)) }
{
    for cpu in 0..sheet.possible {
        append_lane(out, head, sheet.window, cpu)?;
    }
    let seats = sheet.clients.as_slice();
    for seat in seats {
        append_seat(out, sheet, *seat)?;
    }
    Ok(())
}

/// Appends what stands round the lanes of a picture of so many events.
#[tactic(auto, unfolding(crate::specs::Frame::frame_text))]
pub fn append_frame(
    out: &mut Vec<u8>,
    head: &Head,
    sheet: &Sheet,
    many: usize,
) -> Result<(), AllocError>
    requires { HasFewClients sheet.now }
    ensures { OnOk result (Appends out.old out.new (frame_text head.now sheet.now many)) }
{
    append_opening(out, sheet, many)?;
    append_ticks(out, sheet)?;
    append_lanes(out, head, sheet)
}
