//! What types say of their values. The functions do nothing: each brings the fact that it is named after.

ghost use Rattle.std.specs.Prelude.{length};
ghost use Rattle.semantics.specs.ShardPlan.{KeepsRows};
ghost use Rattle.journals.specs.JournalsView.{AreImageMaps, AreJournals};
ghost use Rattle.journals.specs.FileJournals.{ReadBackWhereLegal};

use crate::all::Journals;
use ebpf_decode::Image;

/// The maps of an image of either version are maps that an image of version 2 may have.
pub(crate) fn maps_are_of_an_image(image: &Image)
    ensures { AreImageMaps image.now.maps }
{
    let _ = image.version();
}

/// Journals are of maps that an image may have, with options that fit them, one for each shard.
pub(crate) fn journals_are(journals: &Journals)
    ensures { AreJournals journals.now.maps journals.now.options (length journals.now.shards) }
{
    let _ = journals.maps();
    let _ = journals.options();
    let _ = journals.count();
}

/// Where every journal is legal, and its rows are kept, the text of the journals is their file.
pub(crate) fn legal_journals_read_back(journals: &Journals)
    requires { KeepsRows journals.now.options.journal }
    ensures { ReadBackWhereLegal journals.now }
{
    journals_are(journals);
}
