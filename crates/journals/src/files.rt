//! Journals written to a device and read from one.

ghost use Rattle.std.specs.Prelude.{◌≡◌, ◌↔◌, ◌⊎◌, ◌+◌, ◌-◌, ◌^◌, ◌<◌, IfOk, IfErr, OnOk, OnErr, IsErrOf};
ghost use Rattle.std.specs.Io.KnownBytes.{append_known};
ghost use Rattle.wire.specs.Device.{AppendsFront, IfKnown};
ghost use Rattle.journals.specs.JournalsView.{JournalsView as Lists};
ghost use Rattle.journals.specs.declared.fault.FileFault.TheVariants.{Device, Memory};
ghost use Rattle.semantics.specs.ShardPlan.{KeepsRows};
ghost use Rattle.journals.specs.JournalText.{journals_text};
ghost use Rattle.journals.specs.JournalReading.{IsJournalsFile, JournalsReadBack, RefusesJournals};
ghost use Rattle.journals.specs.FileJournals.{ReadBackWhereLegal};

use crate::all::Journals;
use crate::facts::{journals_are, legal_journals_read_back, maps_are_of_an_image};
use crate::fault::FileFault;
use crate::parsing::journals_of as parsed;
use crate::printing::text_of_journals;
use ebpf_decode::Image;
use std::alloc::Global;
use wire::{ReadFault, Sink, Source, read_all, write_all};

/// Writes the file of these journals, whose rows are kept: a header, and a line for each entry.
///
/// Where every journal is legal, as those of shards that ran are, what was written is a file that reads back as these journals.
///
/// Refused with 52 where memory is; then nothing was written. Refused with 7 where the device failed, once: the call stops there, and a
/// front of the file was taken.
pub fn write_journals<K: Sink>(
    alloc: Global,
    sink: &mut K,
    journals: &Journals,
) -> Result<(), FileFault>
    requires failures { K.failure_count sink.old < 2 ^ 64 - 1 }
    requires rows { KeepsRows journals.now.options.journal }
    ensures written { OnOk result (K.held sink.new ≡ append_known (K.held sink.old) (journals_text journals.now)) }
    ensures front { IfErr result (λ fault. fault ≡ Device → AppendsFront (K.held sink.old) (K.held sink.new) (journals_text journals.now)) }
    ensures nothing { IfErr result (λ fault. fault ≡ Memory → K.held sink.new ≡ K.held sink.old) }
    ensures fault { IfErr result (λ fault. (fault ≡ Device) ⊎ (fault ≡ Memory)) }
    ensures device { IsErrOf result Device ↔ (K.failure_count sink.new ≡ K.failure_count sink.old + 1) }
    ensures steady { IsErrOf result Device ⊎ (K.failure_count sink.new ≡ K.failure_count sink.old) }
    ensures reads_back { JournalsReadBack journals.now }
    ensures legal { ReadBackWhereLegal journals.now }
{
    journals_are(journals);
    legal_journals_read_back(journals);
    let text = text_of_journals(alloc, journals)?;
    match write_all(sink, &text) {
        Ok(()) => Ok(()),
        Err(_) => Err(FileFault::Device),
    }
}

/// Reads the file of journals of the shards of the image's maps from a device.
///
/// Refused with 7 where the device failed, once: the call stops there. Refused with 52 where memory is. Refused with 55 and the first line,
/// counted from 1, that cannot be there: a first line that is no header with options which open shards of these maps; a line that is no
/// entry's in its one spelling, with a key and a value of its map's lengths; one of a shard before that of the line above it; and what
/// comes after the last line feed. Where the bytes are no UTF-8, it is the line of the first byte that is not. After a fault nothing is
/// kept.
pub fn read_journals<S: Source>(
    alloc: Global,
    source: &mut S,
    image: &Image,
) -> Result<Journals, FileFault>
    requires { S.failure_count source.old < 2 ^ 64 - 1 }
    ensures found { IfOk result (λ journals. IfKnown (S.left source.old) (λ bytes. IsJournalsFile image.now.maps bytes journals)) }
    ensures refused { IfErr result (λ fault. (fault ≡ Device) ⊎ IfKnown (S.left source.old) (λ bytes. RefusesJournals image.now.maps bytes fault)) }
    ensures only { (journals : Lists) → IfKnown (S.left source.old)
        (λ bytes. IsJournalsFile image.now.maps bytes journals → IfOk result (λ made. made ≡ journals)) }
    ensures device { IsErrOf result Device ↔ (S.failure_count source.new ≡ S.failure_count source.old + 1) }
    ensures steady { IsErrOf result Device ⊎ (S.failure_count source.new ≡ S.failure_count source.old) }
{
    maps_are_of_an_image(image);
    match read_all(alloc, source) {
        Ok(bytes) => parsed(alloc, image.maps(), &bytes),
        Err(ReadFault::Device) => Err(FileFault::Device),
        Err(ReadFault::Memory) => Err(FileFault::Memory),
    }
}

/// The journals of the shards of the image's maps that these bytes are the file of.
///
/// Refused with 52 where memory is. Refused with 55 and the first line that cannot be there, as `read_journals` is.
pub fn journals_of(alloc: Global, image: &Image, bytes: &[u8]) -> Result<Journals, FileFault>
    ensures found { IfOk result (λ journals. IsJournalsFile image.now.maps bytes.now journals) }
    ensures refused { IfErr result (RefusesJournals image.now.maps bytes.now) }
    ensures only { (journals : Lists) → IsJournalsFile image.now.maps bytes.now journals → IfOk result (λ made. made ≡ journals) }
{
    maps_are_of_an_image(image);
    parsed(alloc, image.maps(), bytes)
}
