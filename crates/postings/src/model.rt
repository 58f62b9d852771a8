//! A posting list as a model.

ghost use Rattle.std.specs.Prelude.{◌≡◌};
ghost use Rattle.postings.specs.Reading.{reading};
ghost use Rattle.postings.specs.Written.{Told};
ghost use Rattle.postings.specs.Source.{reading_of, list_of_tag, ending_of_tag};

use crate::source::PostingSource;
use nodes::model::Model as NodeModel;

/// A posting list: for each tag, the nodes of its records.
#[derive(Clone, Copy)]
pub struct Postings<'a> {
    bytes: &'a [u8],
}

impl<'a> Postings<'a> {
    /// The model of the records in the bytes: all before the first wrong one.
    #[tactic(auto, using(crate::proofs::Telling::told))]
    pub fn new(bytes: &'a [u8]) -> Postings<'a>
        ensures means { reading_of result ≡ reading bytes.now }
        ensures told { Told bytes.now (reading_of result) }
    {
        Postings { bytes }
    }
}

impl<'a> NodeModel for Postings<'a> {
    type Source = PostingSource<'a>;

    ghost list_of = { list_of_tag };

    ghost ending_of = { ending_of_tag };

    fn source(&self, tag: u16, name: u16) -> PostingSource<'a> {
        PostingSource::new(self.bytes, tag, name)
    }
}
