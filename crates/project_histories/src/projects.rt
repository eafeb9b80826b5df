//! The projects, by their places and by their documents.

ghost use Rattle.std.specs.Prelude.{◌≡◌, ◌<◌, ◌+◌, ◌^◌, [], length, slice_get, take, IfOk, OnOk, OnErr, Some};
ghost use Rattle.project_histories.specs.Histories.{Adds, Changes, ChangesOf, HandsOut, HasItem, HasRoom, HasRoomFor, IsOfSome, IsRoomier, KeepsAll, place_of};
ghost use Rattle.project_histories.specs.declared.project.Project.{Project};

use crate::project::Project;
use history_queue::Item;
use ot_units::Name;
use std::alloc::{AllocError, Global};
use std::marker::Model;

/// The projects, in the order in which they first appear, each with its history; and for each document,
/// in the order of making, the place of its project among them. Contracts see the projects, the places
/// of the documents, and how many more of both go in without taking memory.
#[derive(Drop)]
pub struct Projects {
    projects: Vec<Project>,
    places: Vec<usize>,
}

impl Model for Projects {
    ghost use Rattle.std.specs.Prelude.{length, vec_capacity, ◌-◌};
    ghost use Rattle.project_histories.specs.Histories.{Histories};

    ghost Value = { Histories };

    ghost view = { λ p. record { projects = p.projects.items; places = p.places.items; spare = vec_capacity p.projects - length p.projects.items; spare_places = vec_capacity p.places - length p.places.items } };
}

impl Projects {
    /// No projects. Takes no memory.
    pub fn new(alloc: Global) -> Projects
        ensures projects { result.projects ≡ [] }
        ensures places { result.places ≡ [] }
    {
        Projects {
            projects: Vec::new(alloc),
            places: Vec::new(alloc),
        }
    }

    /// How many projects there are.
    pub fn len(&self) -> usize
        ensures { result ≡ length self.now.projects }
    {
        self.projects.len()
    }

    /// The place of a project's name.
    pub fn find(&self, name: &Name) -> Option<usize>
        ensures { result ≡ place_of name.now self.now.projects }
    {
        self.projects
            .iter()
            .position(|project| name.as_str() == project.name.as_str())
    }

    /// The name of the project at a place.
    pub fn name(&self, place: usize) -> &Name
        requires { place < length self.now.projects }
        ensures { (x : Project) → slice_get self.now.projects place ≡ Some x → result.now ≡ x.name }
    {
        &self.projects[place].name
    }

    /// How many items of the project at a place were handed out.
    pub fn handed(&self, place: usize) -> u64
        requires { place < length self.now.projects }
        ensures { (x : Project) → slice_get self.now.projects place ≡ Some x → result ≡ x.handed }
    {
        self.projects[place].handed
    }

    /// How many items of the project at a place are left.
    pub fn left(&self, place: usize) -> u64
        requires { place < length self.now.projects }
        ensures { (x : Project) → slice_get self.now.projects place ≡ Some x → result ≡ length x.queue.items }
    {
        self.projects[place].queue.len()
    }

    /// Makes room for one document more, of a project that may be new. The only error is want of memory.
    pub fn reserve_document(&mut self) -> Result<(), AllocError>
        ensures same { KeepsAll self.old self.new }
        ensures room { OnOk result (HasRoom self.new) }
    {
        self.projects.reserve(1)?;
        self.places.reserve(1)
    }

    /// Adds a document, behind the others, of this project, which is added where its name is new. Takes
    /// no memory: the room was made by [`Projects::reserve_document`].
    pub fn add_document(&mut self, project: Name)
        requires { HasRoom self.old }
        ensures { Adds project self.old self.new }
    {
        let place = match self.find(&project) {
            Some(place) => place,
            None => {
                let alloc = *self.projects.allocator();
                let place = self.projects.len();
                self.projects.push_reserved(Project::new(alloc, project));
                place
            }
        };
        self.places.push_reserved(place);
    }

    /// Makes room for one item more in the history of a document's project. The only error is want of
    /// memory.
    pub fn reserve_item(&mut self, doc: usize) -> Result<(), AllocError>
        requires { IsOfSome doc self.old }
        ensures same { ChangesOf doc IsRoomier self.old self.new }
        ensures room { OnOk result (HasRoomFor doc self.new) }
    {
        let place = self.places[doc];
        self.projects[place].reserve()
    }

    /// Puts an item behind the others in the history of a document's project. Takes no memory: the room
    /// was made by [`Projects::reserve_item`].
    pub fn push_item(&mut self, doc: usize, item: Item)
        requires of { IsOfSome doc self.old }
        requires room { HasRoomFor doc self.old }
        ensures { ChangesOf doc (HasItem item) self.old self.new }
    {
        let place = self.places[doc];
        self.projects[place].push(item);
    }

    /// Hands the first items of the project at a place out, `n` of them, or all where there are fewer.
    /// Where memory is wanting, all stay.
    pub fn take(&mut self, place: usize, n: u64) -> Result<Vec<Item>, AllocError>
        requires within { place < length self.old.projects }
        requires few { (x : Project) → slice_get self.old.projects place ≡ Some x → x.handed + length x.queue.items < 2 ^ 64 }
        ensures taken { IfOk result (λ taken. (x : Project) → slice_get self.old.projects place ≡ Some x → taken.items ≡ take n x.queue.items) }
        ensures rest { OnOk result (Changes place (HandsOut n) self.old self.new) }
        ensures kept { OnErr result (self.new ≡ self.old) }
    {
        self.projects[place].take(n)
    }
}
