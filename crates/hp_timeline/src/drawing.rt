//! The whole picture.

ghost use Rattle.std.specs.Prelude.{◌≡◌, ◌≤◌, ◌<◌, ◌+◌, ◌++◌, IfOk, OnOk, option_to_list, length, take};
ghost use Rattle.std.specs.List.{flat_map};
ghost use Rattle.hp_model.specs.Lawful.{IsLawful};
ghost use Rattle.hp_text.specs.Appends.{Appends};
ghost use Rattle.hp_states.specs.declared.limits.TheConstants.{MAX_EVENTS};
ghost use Rattle.hp_timeline.specs.Numbers.{AreNumbers};
ghost use Rattle.hp_timeline.specs.Windows.{IsWindow};
ghost use Rattle.hp_timeline.specs.Sheet.{HasFewClients, sheet_of};
ghost use Rattle.hp_timeline.specs.Spans.{ended_at, span_text};
ghost use Rattle.hp_timeline.specs.Tracks.{stop_text};
ghost use Rattle.hp_timeline.specs.Scenes.{IsScene, AreTracks, cpu_in, walks_in, sections_in, going_in};
ghost use Rattle.hp_timeline.specs.Picture.{spans_text, tracks_text, marks_text, picture as picture_of};

use crate::frame::append_frame;
use crate::mark::append_mark;
use crate::numbering::numbers_of;
use crate::scene::{Scene, span_of_begun};
use crate::sheet::Sheet;
use crate::span::{Class, Span};
use crate::span_text::append_span;
use crate::text::{append, append_with};
use crate::track::{Track, follow};
use crate::window::Window;
use hp_event::{Event, Head, Journal};
use hp_states::NoMemory;
use std::alloc::{AllocError, Global};

/// So many bytes an event takes in most pictures. Room for them is made at once, so that the text seldom moves.
const EVENT_BYTES: usize = 120;

/// The processor that walks, or that an entry is of.
fn cpu_of(event: &Event) -> Option<u32>
    ensures { result ≡ cpu_in event.now }
{
    match *event {
        Event::WalkBegin { cpu, .. } | Event::Call { cpu, .. } | Event::WalkEnd { cpu, .. } => {
            Some(cpu)
        }
        _ => None,
    }
}

/// Takes the event of a place, which is the next.
#[inline(always)]
fn take_event(
    scene: &mut Scene,
    head: &Head,
    events: &[Event],
    place: u32,
) -> Result<(), AllocError>
    requires lawful { IsLawful head.now events.now }
    requires place { place < length events.now }
    requires scene { IsScene head.now (take place events.now) scene.old }
    ensures { OnOk result (IsScene head.now (take (place + 1) events.now) scene.new) }
{
    scene.take(head, place, &events[place as usize])?;
    Ok(())
}

/// What is kept of the events before a place.
fn scene_before(
    alloc: Global,
    head: &Head,
    events: &[Event],
    place: u32,
) -> Result<Scene, AllocError>
    requires lawful { IsLawful head.now events.now }
    requires place { place ≤ length events.now }
    ensures { IfOk result (IsScene head.now (take place events.now)) }
{
    let mut scene = Scene::new(alloc, head)?;
    for at in 0..place {
        take_event(&mut scene, head, events, at)?;
    }
    Ok(scene)
}

/// The lines of the processors, at the beginning of the window.
fn first_tracks(
    alloc: Global,
    head: &Head,
    events: &[Event],
    window: Window,
    scene: &Scene,
) -> Result<Vec<Track>, AllocError>
    requires { IsScene head.now (take window.before events.now) scene.now }
    ensures { IfOk result (λ tracks. AreTracks head.now events.now window window.before tracks.items) }
{
    let mut tracks = Vec::new(alloc);
    for cpu in 0..head.possible {
        tracks.push(Track::start(alloc, cpu, scene.shown(cpu))?)?;
    }
    Ok(tracks)
}

/// Takes the event of a place, and goes on with the lines of the processors.
fn advance(
    scene: &mut Scene,
    tracks: &mut Vec<Track>,
    head: &Head,
    events: &[Event],
    window: Window,
    place: u32,
) -> Result<(), AllocError>
    requires lawful { IsLawful head.now events.now }
    requires place { (window.before ≤ place) × (place < length events.now) }
    requires scene { IsScene head.now (take place events.now) scene.old }
    requires tracks { AreTracks head.now events.now window place tracks.old.items }
    ensures scene { OnOk result (IsScene head.now (take (place + 1) events.now) scene.new) }
    ensures tracks { OnOk result (AreTracks head.now events.now window (place + 1) tracks.new.items) }
{
    match cpu_of(&events[place as usize]) {
        None => take_event(scene, head, events, place),
        Some(cpu) => {
            let from = scene.shown(cpu);
            take_event(scene, head, events, place)?;
            follow(tracks, window, place, cpu, from, scene.shown(cpu))
        }
    }
}

/// Appends something that lasts, where there is something. Most events end nothing.
#[inline(always)]
fn append_some(
    out: &mut Vec<u8>,
    sheet: &Sheet,
    events: &[Event],
    numbers: &[u32],
    span: Option<Span>,
) -> Result<(), AllocError>
    requires few { HasFewClients sheet.now }
    requires numbers { AreNumbers events.now numbers.now }
    ensures { OnOk result (Appends out.old out.new
        (flat_map (span_text sheet.now events.now) (option_to_list span))) }
{
    match span {
        Some(span) => append_span(out, sheet, events, numbers, span),
        None => Ok(()),
    }
}

/// Appends what the event of a place ends.
fn append_ended(
    out: &mut Vec<u8>,
    sheet: &Sheet,
    head: &Head,
    events: &[Event],
    numbers: &[u32],
    scene: &Scene,
    place: u32,
) -> Result<(), AllocError>
    requires few { HasFewClients sheet.now }
    requires numbers { AreNumbers events.now numbers.now }
    requires lawful { IsLawful head.now events.now }
    requires place { place < length events.now }
    requires scene { IsScene head.now (take place events.now) scene.now }
    ensures { OnOk result (Appends out.old out.new
        (flat_map (span_text sheet.now events.now) (ended_at events.now place))) }
{
    let event = &events[place as usize];
    if let Event::Call { .. } = *event {
        return Ok(());
    }
    append_some(out, sheet, events, numbers, scene.ended(place, event))
}

/// Appends the walks in flight after some events.
fn append_walks(
    out: &mut Vec<u8>,
    sheet: &Sheet,
    events: &[Event],
    numbers: &[u32],
    scene: &Scene,
    last: u32,
) -> Result<(), AllocError>
    requires few { HasFewClients sheet.now }
    requires numbers { AreNumbers events.now numbers.now }
    ensures { OnOk result (Appends out.old out.new
        (flat_map (span_text sheet.now events.now) (walks_in scene.now last sheet.now.possible))) }
{
    for cpu in 0..sheet.possible {
        append_some(out, sheet, events, numbers, scene.going_walk(cpu, last))?;
    }
    Ok(())
}

/// Appends the read sections in flight after some events.
fn append_sections(
    out: &mut Vec<u8>,
    sheet: &Sheet,
    events: &[Event],
    numbers: &[u32],
    scene: &Scene,
    last: u32,
) -> Result<(), AllocError>
    requires few { HasFewClients sheet.now }
    requires numbers { AreNumbers events.now numbers.now }
    ensures { OnOk result (Appends out.old out.new
        (flat_map (span_text sheet.now events.now) (sections_in scene.now last sheet.now.clients))) }
{
    let seats = sheet.clients.as_slice();
    for seat in seats {
        append_some(
            out,
            sheet,
            events,
            numbers,
            scene.going_section(*seat, last),
        )?;
    }
    Ok(())
}

/// Appends what is in flight after some events.
fn append_going(
    out: &mut Vec<u8>,
    sheet: &Sheet,
    events: &[Event],
    numbers: &[u32],
    scene: &Scene,
    last: u32,
) -> Result<(), AllocError>
    requires few { HasFewClients sheet.now }
    requires numbers { AreNumbers events.now numbers.now }
    ensures { OnOk result (Appends out.old out.new
        (flat_map (span_text sheet.now events.now) (going_in scene.now last sheet.now))) }
{
    append_walks(out, sheet, events, numbers, scene, last)?;
    append_some(
        out,
        sheet,
        events,
        numbers,
        span_of_begun(Class::Going, false, last, scene.operation),
    )?;
    append_some(
        out,
        sheet,
        events,
        numbers,
        span_of_begun(Class::Going, false, last, scene.registration),
    )?;
    append_sections(out, sheet, events, numbers, scene, last)
}

/// Appends the end of a line.
#[tactic(auto, unfolding(crate::specs::Tracks::stop_text))]
fn append_stop(out: &mut Vec<u8>, window: Window) -> Result<(), AllocError>
    ensures { OnOk result (Appends out.old out.new (stop_text window)) }
{
    append_with(out, b"H", window.edge(window.until))?;
    append(out, b"'/>\n")
}

/// Appends the lines of the processors.
fn append_tracks(out: &mut Vec<u8>, window: Window, tracks: &[Track]) -> Result<(), AllocError>
    ensures { OnOk result (Appends out.old out.new (flat_map (λ t. t ++ stop_text window) tracks.now)) }
{
    for track in tracks {
        out.extend_from_slice(track.as_slice())?;
        append_stop(out, window)?;
    }
    Ok(())
}

/// Appends what lasts, and above it the lines of the processors.
fn append_lasting(
    alloc: Global,
    out: &mut Vec<u8>,
    head: &Head,
    events: &[Event],
    sheet: &Sheet,
) -> Result<(), AllocError>
    requires lawful { IsLawful head.now events.now }
    requires window { IsWindow sheet.now.window (length events.now) }
    requires sheet { sheet.now ≡ sheet_of head.now events.now sheet.now.window }
    requires few { HasFewClients sheet.now }
    requires many { length events.now ≤ MAX_EVENTS }
    ensures { OnOk result (Appends out.old out.new
        (spans_text head.now events.now sheet.now.window ++ tracks_text head.now events.now sheet.now.window)) }
{
    let window = sheet.window;
    let counted = numbers_of(alloc, events)?;
    let numbers = counted.as_slice();
    let mut scene = scene_before(alloc, head, events, window.before)?;
    let mut tracks = first_tracks(alloc, head, events, window, &scene)?;
    for place in window.before..window.until {
        append_ended(out, sheet, head, events, numbers, &scene, place)?;
        advance(&mut scene, &mut tracks, head, events, window, place)?;
    }
    let last = window.until.saturating_sub(1);
    append_going(out, sheet, events, numbers, &scene, last)?;
    append_tracks(out, window, &tracks)
}

/// Appends the marks of the entries.
#[tactic(auto, unfolding(crate::specs::Picture::marks_text))]
fn append_marks(out: &mut Vec<u8>, events: &[Event], window: Window) -> Result<(), AllocError>
    requires { IsWindow window (length events.now) }
    ensures { OnOk result (Appends out.old out.new (marks_text events.now window)) }
{
    for place in window.before..window.until {
        append_mark(out, window, events, place)?;
    }
    Ok(())
}

/// The picture of a window of a lawful journal: the bytes of an SVG file.
///
/// The window lies within the journal's events. What the picture shows, `specs/Picture.antt` says. Takes a time linear
/// in the events, but for what the processors and the seats take, and memory for the bytes, for the numbers of the
/// events' operations, and for what is kept of the events; where it is wanting: `NoMemory`. The picture is this project's own.
#[tactic(auto, unfolding(crate::specs::Picture::picture))]
pub fn picture(alloc: Global, journal: &Journal, window: Window) -> Result<Vec<u8>, NoMemory>
    requires lawful { IsLawful journal.now.head journal.now.events }
    requires window { IsWindow window (length journal.now.events) }
    ensures { IfOk result (λ bytes. bytes.items ≡ picture_of journal.now.head journal.now.events window) }
{
    let head = journal.head();
    let events = journal.events();
    let many = journal.len();
    let sheet = Sheet::new(alloc, head, events, window)?;
    let mut out = Vec::new(alloc);
    out.reserve(EVENT_BYTES * (window.until - window.before) as usize)?;
    append_frame(&mut out, head, &sheet, many as usize)?;
    append_lasting(alloc, &mut out, head, events, &sheet)?;
    append_marks(&mut out, events, window)?;
    append(&mut out, b"</svg>\n")?;
    Ok(out)
}
