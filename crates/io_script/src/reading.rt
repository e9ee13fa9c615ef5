//! A line from its text.
ghost use Rattle.std.specs.Prelude.{◌≡◌, ◌≢◌, ◌+◌, ◌≤◌, ◌∷◌, [], true, length, IfOk, MatchOption};
ghost use Rattle.fabric_script.specs.Known.{Known};
ghost use Rattle.fabric_script.specs.declared.values.Value.TheVariants.{Bytes};
ghost use Rattle.fabric_script.specs.Words.{words_left};
ghost use Rattle.io_script.specs.declared.forms.IoForm.TheVariants as F;
ghost use Rattle.io_script.specs.declared.reasons.IoReason.TheVariants.{OfScript};
ghost use Rattle.fabric_script.specs.declared.reasons.Reason.TheVariants.{UnknownLine};
ghost use Rattle.io_script.specs.IoLines.{io_form_of, io_values_of, io_place};
ghost use Rattle.io_script.specs.IoReading.{earlier_with, io_cost_of, nothing_earlier, ReadsIo};
ghost use Rattle.io_script.specs.IoTaking.{asks_to_write, is_streaming, read_end, standing_hit, IsFabric, ReadsBehind};

use crate::forms::{IoForm, form_named};
use crate::lines::IoLine;
use crate::reasons::IoReason;
use crate::words::{
    Fabric, take_address, take_device, take_endpoint, take_load, take_memory_size, take_read_size,
};
use fabric_script::{Reason, split_word};
use io_packets::Load;
use std::alloc::{AllocError, Global};
use std::marker::Model;

/// The most that the lines of a script may cost.
const MOST_COST: u32 = 100_000;

/// What a round costs for each link.
const LINK_COST: u32 = 20;

/// What is kept of the lines before: what they cost, and whether one asked for something or was a
/// round.
#[derive(Clone, Copy)]
pub(crate) struct Earlier {
    cost: u32,
    begun: bool,
}

impl Model for Earlier {
    ghost use Rattle.std.specs.Prelude.{◌≤◌};
    ghost use Rattle.io_script.specs.IoReading.{Earlier};

    ghost Value = { Earlier };

    ghost view = { λ e. record { cost = e.cost; begun = e.begun } };

    ghost inverse = { λ e. record { cost = e.cost; begun = e.begun } };

    ghost invariant = { λ e. e.cost ≤ 100000 };
}

impl Earlier {
    /// Before the first line.
    pub(crate) fn new() -> Earlier
        ensures { result ≡ nothing_earlier }
    {
        Earlier {
            cost: 0,
            begun: false,
        }
    }

    /// The lines before with one more of this form.
    pub(crate) fn with(self, fabric: Fabric<'_>, form: IoForm) -> Earlier
        requires few { fabric.links ≤ 16777217 }
        requires cheap { self.cost + io_cost_of fabric.links form ≤ 100000 }
        ensures { result ≡ earlier_with fabric.entry.links self form }
    {
        Earlier {
            cost: self.cost + cost_of(fabric, form),
            begun: self.begun || form != IoForm::Memory,
        }
    }

    /// The reason that hits a line of this form for where it stands, whatever its words say.
    fn hit(self, fabric: Fabric<'_>, form: IoForm) -> Option<IoReason>
        requires few { fabric.links ≤ 16777217 }
        ensures { result ≡ standing_hit fabric.entry.links self form }
    {
        if self.cost + cost_of(fabric, form) > MOST_COST {
            Some(IoReason::OfScript(Reason::TooMuchWork))
        } else if form == IoForm::Memory && self.begun {
            Some(IoReason::LateMemory)
        } else {
            None
        }
    }
}

/// What a line of this form costs.
fn cost_of(fabric: Fabric<'_>, form: IoForm) -> u32
    requires { fabric.links ≤ 16777217 }
    ensures value { result ≡ io_cost_of fabric.entry.links form }
    ensures most { result ≤ 335544340 }
{
    match form {
        IoForm::Round => LINK_COST * fabric.links.max(1),
        _ => 1,
    }
}

/// The line that a text is, or the least reason that hits it.
pub(crate) fn read_io_line(
    alloc: Global,
    fabric: Fabric<'_>,
    earlier: Earlier,
    text: &[u8],
) -> Result<Result<IoLine, IoReason>, AllocError>
    requires few_names { length fabric.names.now ≤ 64 }
    requires few_links { fabric.links ≤ 16777217 }
    ensures { IfOk result (λ read. (known : Known)
        → IsFabric known fabric.entry.names.now fabric.entry.switches.now fabric.entry.links
        → ReadsIo known earlier text.now read) }
{
    let (keyword, rest) = split_word(text);
    let Some(form) = form_named(keyword) else {
        return Ok(Err(unknown()));
    };
    let hit = earlier.hit(fabric, form);
    match form {
        IoForm::Memory => Ok(read_memory(fabric, rest, hit)),
        IoForm::NRead => Ok(read_read(fabric, rest, hit)),
        IoForm::NWrite | IoForm::NWriteR | IoForm::SWrite => {
            read_write(alloc, fabric, form, rest, hit)
        }
        IoForm::Round => Ok(read_round(rest, hit)),
    }
}

/// The line of the words behind `memory`, after a reason that hits it anyhow.
fn read_memory(
    fabric: Fabric<'_>,
    words: Option<&[u8]>,
    hit: Option<IoReason>,
) -> Result<IoLine, IoReason>
    requires { length fabric.names.now ≤ 64 }
    ensures { (known : Known)
        → IsFabric known fabric.entry.names.now fabric.entry.switches.now fabric.entry.links
        → ReadsBehind known F.Memory (words_left words.entry) hit result }
{
    let Some((node, bytes)) = two_words(words) else {
        return Err(unknown());
    };
    let mut hit = hit;
    let node = take_endpoint(fabric, node, &mut hit);
    let bytes = take_memory_size(bytes, &mut hit);
    end(IoLine::Memory { node, bytes }, hit)
}

/// The line of the words behind `nread`, after a reason that hits it anyhow.
fn read_read(
    fabric: Fabric<'_>,
    words: Option<&[u8]>,
    hit: Option<IoReason>,
) -> Result<IoLine, IoReason>
    requires { length fabric.names.now ≤ 64 }
    ensures { (known : Known)
        → IsFabric known fabric.entry.names.now fabric.entry.switches.now fabric.entry.links
        → ReadsBehind known F.NRead (words_left words.entry) hit result }
{
    let Some((node, dest, addr, size)) = four_words(words) else {
        return Err(unknown());
    };
    let mut hit = hit;
    let node = take_endpoint(fabric, node, &mut hit);
    let dest = take_device(dest, &mut hit);
    let addr = take_address(addr, &mut hit);
    let size = take_read_size(size, &mut hit);
    let line = IoLine::NRead {
        node,
        dest,
        addr,
        size,
    };
    end(line, hit)
}

/// The line of the words behind the keyword of a write, after a reason that hits it anyhow.
fn read_write(
    alloc: Global,
    fabric: Fabric<'_>,
    form: IoForm,
    words: Option<&[u8]>,
    hit: Option<IoReason>,
) -> Result<Result<IoLine, IoReason>, AllocError>
    requires few { length fabric.names.now ≤ 64 }
    requires write { asks_to_write form ≡ true }
    ensures { IfOk result (λ read. (known : Known)
        → IsFabric known fabric.entry.names.now fabric.entry.switches.now fabric.entry.links
        → ReadsBehind known form (words_left words.entry) hit read) }
{
    let Some((node, dest, addr, load)) = four_words(words) else {
        return Ok(Err(unknown()));
    };
    let mut hit = hit;
    let node = take_endpoint(fabric, node, &mut hit);
    let dest = take_device(dest, &mut hit);
    let addr = take_address(addr, &mut hit);
    let load = take_load(alloc, load, is_streaming(form), &mut hit)?;
    Ok(end(write_of(form, node, dest, addr, load), hit))
}

/// Whether a line of this form asks for a streaming write.
fn is_streaming(form: IoForm) -> bool
    ensures { result ≡ is_streaming form }
{
    matches!(form, IoForm::SWrite)
}

/// The line of this form that asks to write.
fn write_of(form: IoForm, node: u8, dest: u8, addr: u32, load: Load) -> IoLine
    requires { asks_to_write form ≡ true }
    ensures form { io_form_of result ≡ form }
    ensures values { io_values_of result ≡ io_place node dest addr (Bytes load) }
{
    match form {
        IoForm::NWrite => IoLine::NWrite {
            node,
            dest,
            addr,
            load,
        },
        IoForm::NWriteR => IoLine::NWriteR {
            node,
            dest,
            addr,
            load,
        },
        _ => IoLine::SWrite {
            node,
            dest,
            addr,
            load,
        },
    }
}

/// The line of the words behind `round`, after a reason that hits it anyhow.
fn read_round(words: Option<&[u8]>, hit: Option<IoReason>) -> Result<IoLine, IoReason>
    ensures { (known : Known) → ReadsBehind known F.Round (words_left words.entry) hit result }
{
    match next_word(words) {
        Some(_) => Err(unknown()),
        None => end(IoLine::Round, hit),
    }
}

/// The reason of a line without a form.
fn unknown() -> IoReason
    ensures { result ≡ OfScript UnknownLine }
{
    IoReason::OfScript(Reason::UnknownLine)
}

/// The line, or the least reason that hits it.
fn end(line: IoLine, hit: Option<IoReason>) -> Result<IoLine, IoReason>
    ensures { result ≡ read_end hit line }
{
    match hit {
        Some(reason) => Err(reason),
        None => Ok(line),
    }
}

/// The words, if they are two.
fn two_words(words: Option<&[u8]>) -> Option<(&[u8], &[u8])>
    ensures { MatchOption result (length (words_left words.entry) ≢ 2)
        (λ found. words_left words.entry ≡ found.0.now ∷ found.1.now ∷ []) }
{
    let (first, words) = next_word(words)?;
    let (second, words) = next_word(words)?;
    match next_word(words) {
        Some(_) => None,
        None => Some((first, second)),
    }
}

/// The words, if they are four.
fn four_words(words: Option<&[u8]>) -> Option<(&[u8], &[u8], &[u8], &[u8])>
    ensures { MatchOption result (length (words_left words.entry) ≢ 4)
        (λ found. words_left words.entry
        ≡ found.0.now ∷ found.1.now ∷ found.2.now ∷ found.3.now ∷ []) }
{
    let (first, words) = next_word(words)?;
    let (second, words) = next_word(words)?;
    let (third, fourth) = two_words(words)?;
    Some((first, second, third, fourth))
}

/// The next word, and what stands behind it.
fn next_word(words: Option<&[u8]>) -> Option<(&[u8], Option<&[u8]>)>
    ensures { MatchOption result (words_left words.entry ≡ [])
        (λ cut. words_left words.entry ≡ cut.0.now ∷ words_left cut.1) }
{
    Some(split_word(words?))
}
