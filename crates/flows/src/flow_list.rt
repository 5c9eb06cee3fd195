//! Flows in the order in which they first appear, each found by its text.

ghost use Rattle.std.specs.Prelude.{◌≡◌, ◌≤◌, ◌<◌, ◌+◌, ◌^◌, ◌++◌, ◌∷◌, [], Some, None, ℕ, List, IfOk, OnOk, length, map};
ghost use Rattle.std.specs.List.{AllByRecursion, position};
ghost use Rattle.flows.specs.FlowRecords.{HasRoomForFrame, IsIndexed, place_in, stories_in, story_of};
ghost use Rattle.flows.specs.Stories.{after, story_begun, flow_of_row, row_has_flow, move_by};
ghost use Rattle.flows.specs.Telling.{address_in, address_of_story, backend_in, backend_of_story, story_at};
ghost use Rattle.flows.specs.Telling.{is_story_of, move_in, move_of, stories_with, stories_after};
ghost use Rattle.flows.specs.Walking.{KnowsSettings, applied};

use crate::flow::{Flow, flow_of, has_flow};
use crate::reason::Reason;
use crate::settings::Settings;
use std::alloc::{AllocError, Global};
use std::collections::BTreeMap;

/// Flows in the order in which they first appear.
#[derive(Drop)]
pub(crate) struct FlowList<'a> {
    pub(crate) flows: Vec<Flow<'a>>,
    /// Of each flow its place in the list.
    places: BTreeMap<&'a str, usize>,
}

impl<'a> FlowList<'a> {
    /// No flow.
    pub(crate) fn new(alloc: Global) -> FlowList<'a>
        ensures indexed { IsIndexed result }
        ensures none { stories_in result ≡ [] }
    {
        FlowList {
            flows: Vec::new(alloc),
            places: BTreeMap::new(alloc),
        }
    }

    /// Where the list has this flow.
    fn place_of(&self, flow: &'a str) -> Option<usize>
        ensures { result ≡ place_in self.now flow.now }
    {
        self.places.get(&flow).copied()
    }

    /// The address to which the last sent frame of the flow at this place went.
    fn address_at(&self, place: Option<usize>) -> &'a str
        ensures { result.now ≡ address_of_story (story_at (stories_in self.now) place) }
    {
        match place {
            None => "",
            Some(place) => match self.flows.get(place) {
                None => "",
                Some(flow) => flow.address,
            },
        }
    }

    /// The address to which the last sent frame of the row's flow went.
    pub(crate) fn address_of(&self, row: &'a str) -> &'a str
        requires { IsIndexed self.now }
        ensures { result.now ≡ address_in (flow_of_row row.now) (stories_in self.now) }
    {
        self.address_at(self.place_of(flow_of(row)))
    }

    /// The number of the backend that got the last sent frame of the flow at this place.
    fn backend_at(&self, place: Option<usize>) -> &'a str
        ensures { result.now ≡ backend_of_story (story_at (stories_in self.now) place) }
    {
        match place {
            None => "",
            Some(place) => match self.flows.get(place) {
                None => "",
                Some(flow) => flow.backend,
            },
        }
    }

    /// The number of the backend that got the last sent frame of the row's flow.
    pub(crate) fn backend_of(&self, row: &'a str) -> &'a str
        requires { IsIndexed self.now }
        ensures { result.now ≡ backend_in (flow_of_row row.now) (stories_in self.now) }
    {
        self.backend_at(self.place_of(flow_of(row)))
    }

    /// Notes a frame of the flow at this place.
    fn go_on(
        &mut self,
        alloc: Global,
        place: usize,
        row: &'a str,
        settings: &Settings,
    ) -> Result<Option<Reason>, AllocError>
        requires indexed { IsIndexed self.old }
        requires place { position (is_story_of (flow_of_row row.now)) (stories_in self.old) ≡ Some place }
        requires small { AllByRecursion HasRoomForFrame (stories_in self.old) }
        requires knows { KnowsSettings settings.now }
        ensures indexed { OnOk result (IsIndexed self.new) }
        ensures noted { OnOk result (stories_in self.new ≡ stories_with row.now (applied settings.now) (stories_in self.old)) }
        ensures moved { IfOk result (λ moved. moved ≡ move_in row.now (applied settings.now) (stories_in self.old)) }
    {
        let moved = self.flows[place].note(alloc, row, settings)?;
        Ok(moved)
    }

    /// Notes the first frame of a flow.
    fn begin(&mut self, alloc: Global, row: &'a str, settings: &Settings) -> Result<(), AllocError>
        requires indexed { IsIndexed self.old }
        requires absent { position (is_story_of (flow_of_row row.now)) (stories_in self.old) ≡ None }
        requires knows { KnowsSettings settings.now }
        ensures indexed { OnOk result (IsIndexed self.new) }
        ensures noted { OnOk result (stories_in self.new ≡ stories_with row.now (applied settings.now) (stories_in self.old)) }
        ensures unmoved { OnOk result (move_in row.now (applied settings.now) (stories_in self.old) ≡ None) }
    {
        let mut flow = Flow::begun(alloc, row);
        let _ = flow.note(alloc, row, settings)?;
        let place = self.flows.len();
        self.flows.push(flow)?;
        self.places.insert(flow_of(row), place)?;
        Ok(())
    }

    /// Notes a frame that has a flow, and says why it is moved, if it is.
    fn note(
        &mut self,
        alloc: Global,
        row: &'a str,
        settings: &Settings,
    ) -> Result<Option<Reason>, AllocError>
        requires indexed { IsIndexed self.old }
        requires small { AllByRecursion HasRoomForFrame (stories_in self.old) }
        requires knows { KnowsSettings settings.now }
        ensures indexed { OnOk result (IsIndexed self.new) }
        ensures noted { OnOk result (stories_in self.new ≡ stories_with row.now (applied settings.now) (stories_in self.old)) }
        ensures moved { IfOk result (λ moved. moved ≡ move_in row.now (applied settings.now) (stories_in self.old)) }
    {
        match self.place_of(flow_of(row)) {
            Some(place) => self.go_on(alloc, place, row, settings),
            None => {
                self.begin(alloc, row, settings)?;
                Ok(None)
            }
        }
    }

    /// Notes a frame, and says why it is moved, if it is.
    pub(crate) fn tell(
        &mut self,
        alloc: Global,
        row: &'a str,
        settings: &Settings,
    ) -> Result<Option<Reason>, AllocError>
        requires indexed { IsIndexed self.old }
        requires small { AllByRecursion HasRoomForFrame (stories_in self.old) }
        requires knows { KnowsSettings settings.now }
        ensures indexed { OnOk result (IsIndexed self.new) }
        ensures told { OnOk result (stories_in self.new ≡ stories_after row.now (applied settings.now) (stories_in self.old)) }
        ensures moved { IfOk result (λ moved. moved ≡ move_of row.now (applied settings.now) (stories_in self.old)) }
    {
        if has_flow(row) {
            self.note(alloc, row, settings)
        } else {
            Ok(None)
        }
    }
}
