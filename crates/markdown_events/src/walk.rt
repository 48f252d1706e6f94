//! The events so far, and what is open.

ghost use Rattle.std.specs.Prelude.{◌≡◌, IfOk, OnOk, map, reverse};
ghost use Rattle.markdown_marks.specs.Remaining.{remaining};
ghost use Rattle.markdown_leaves.specs.Parts.{block_of, part_of};
ghost use Rattle.markdown_events.specs.Walks.{walking_of, innermost, is_list, has_sign, nothing_walked, begun, innermost_ended, list_ended, in_list, container_begun, container_ended, said, leaf_told, part_told, all_ended};
ghost use Rattle.markdown_events.specs.Contents.{event_of};

use crate::events::{Event, Tag};
use markdown_blocks::Container;
use markdown_leaves::{Block, Part};
use markdown_marks::rest::Rest;
use std::alloc::{AllocError, Global};

/// The events so far, and what is open, the innermost last. Out of memory is the only error of its methods, and it is of no use after one.
#[derive(Drop)]
pub(crate) struct Walk<'s> {
    pub events: Vec<Event<'s>>,
    pub around: Vec<Tag>,
}

// The innermost of what is open, if anything is.
fn innermost(around: &[Tag]) -> Option<Tag>
    ensures { result ≡ innermost (reverse around.now) }
{
    match around.split_last() {
        None => None,
        Some((tag, _)) => Some(*tag),
    }
}

fn is_list(tag: Option<Tag>) -> bool
    ensures { result ≡ is_list tag }
{
    match tag {
        Some(Tag::List { .. }) => true,
        Some(Tag::Quote | Tag::Item | Tag::Leaf(_)) | None => false,
    }
}

// Whether the tag is a list whose items have this sign.
fn has_sign(sign: u8, tag: Option<Tag>) -> bool
    ensures { result ≡ has_sign sign tag }
{
    match tag {
        Some(Tag::List { sign: own, .. }) => own == sign,
        Some(Tag::Quote | Tag::Item | Tag::Leaf(_)) | None => false,
    }
}

impl<'s> Walk<'s> {
    /// Nothing has happened.
    pub fn new(alloc: Global) -> Walk<'s>
        ensures { walking_of result ≡ nothing_walked }
    {
        Walk {
            events: Vec::new(alloc),
            around: Vec::new(alloc),
        }
    }

    // This begins.
    fn begin(&mut self, tag: Tag, apart: bool) -> Result<(), AllocError>
        ensures { OnOk result (walking_of self.new ≡ begun tag apart (walking_of self.old)) }
    {
        self.events.push(Event::Start(tag, apart))?;
        self.around.push(tag)?;
        Ok(())
    }

    // The innermost ends, if anything is open.
    fn end_innermost(&mut self) -> Result<(), AllocError>
        ensures { OnOk result (walking_of self.new ≡ innermost_ended (walking_of self.old)) }
    {
        match self.around.pop() {
            None => {}
            Some(tag) => self.events.push(Event::End(tag))?,
        }
        Ok(())
    }

    // The innermost ends, if it is a list.
    fn end_list(&mut self) -> Result<(), AllocError>
        ensures { OnOk result (walking_of self.new ≡ list_ended (walking_of self.old)) }
    {
        if is_list(innermost(&self.around)) {
            self.end_innermost()
        } else {
            Ok(())
        }
    }

    // An item goes on with a list, or begins one.
    fn begin_list(&mut self, sign: u8, number: u32, apart: bool) -> Result<(), AllocError>
        ensures { OnOk result (walking_of self.new ≡ in_list sign number apart (walking_of self.old)) }
    {
        if has_sign(sign, innermost(&self.around)) {
            return Ok(());
        }
        self.end_list()?;
        self.begin(Tag::List { sign, number }, apart)
    }

    fn begin_container(&mut self, container: Container, apart: bool) -> Result<(), AllocError>
        ensures { OnOk result (walking_of self.new ≡ container_begun container apart (walking_of self.old)) }
    {
        match container {
            Container::Quote => {
                self.end_list()?;
                self.begin(Tag::Quote, apart)
            }
            Container::Item { sign, number, .. } => {
                self.begin_list(sign, number, apart)?;
                self.begin(Tag::Item, apart)
            }
        }
    }

    // The last container ends, and a list in it.
    fn end_container(&mut self) -> Result<(), AllocError>
        ensures { OnOk result (walking_of self.new ≡ container_ended (walking_of self.old)) }
    {
        self.end_list()?;
        self.end_innermost()
    }

    fn say(&mut self, lines: &[Rest<'s>]) -> Result<(), AllocError>
        ensures { OnOk result (walking_of self.new ≡ said (map remaining lines.now) (walking_of self.old)) }
    {
        for line in lines {
            self.events.push(Event::Line(*line))?;
        }
        Ok(())
    }

    fn tell_leaf(&mut self, leaf: &Block<'s>) -> Result<(), AllocError>
        ensures { OnOk result (walking_of self.new ≡ leaf_told (block_of leaf.now) (walking_of self.old)) }
    {
        self.end_list()?;
        self.begin(Tag::Leaf(leaf.kind), leaf.apart)?;
        self.say(&leaf.lines)?;
        self.end_innermost()
    }

    /// One part more.
    pub fn tell(&mut self, part: &Part<'s>) -> Result<(), AllocError>
        ensures { OnOk result (walking_of self.new ≡ part_told (part_of part.now) (walking_of self.old)) }
    {
        match part {
            Part::Begins(container, apart) => self.begin_container(*container, *apart),
            Part::Ends => self.end_container(),
            Part::Block(leaf) => self.tell_leaf(leaf),
        }
    }

    /// All events, once all that is open has ended.
    pub fn into_events(self) -> Result<Vec<Event<'s>>, AllocError>
        ensures { IfOk result (λ events. map event_of events.items ≡ all_ended (walking_of self.entry)) }
    {
        let mut walk = self;
        while !walk.around.is_empty() {
            walk.end_innermost()?;
        }
        Ok(walk.events)
    }
}
