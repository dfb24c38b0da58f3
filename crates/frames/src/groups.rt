//! Groups of clauses.
ghost use Rattle.std.specs.Prelude.{◌≡◌, ◌++◌, ◌∷◌, ℕ, [], Some, None, is_some, option_copied, IfSome, IfNone, IfOk, IfErr, OnOk, OnErr};
ghost use Rattle.frames.specs.Groups.{AreRising, active_in, clauses_at, group_at, is_active, is_group, new_group, with_group, with_mark};
ghost use Rattle.frames.specs.Places.{AreInOrder, IsGapFor, IsGroupAt, with_joined, without_last};

use matrix::Matrix;
use memory::NoMemory;
use prefix::LitList;
use std::alloc::{AllocError, Global};
use std::marker::Model;

/// Clauses under a number. They are in the open formula while the group is active.
#[derive(Debug, Drop)]
pub struct Group {
    number: u32,
    active: bool,
    rows: Vec<LitList>,
}

impl Model for Group {
    ghost use Rattle.frames.specs.Groups.{Group as GroupRecord};

    ghost Value = { GroupRecord };

    ghost view = { λ g. record { number = g.number; active = g.active; clauses = g.rows.items } };
}

impl Group {
    // An active group without clauses. This takes no memory.
    fn new(alloc: Global, number: u32) -> Self
        ensures { result ≡ new_group number }
    {
        Self {
            number,
            active: true,
            rows: Vec::new(alloc),
        }
    }

    /// The number, at least 1 and at most `Frames::MAX_GROUP`.
    pub fn number(&self) -> u32
        ensures { result ≡ self.now.number }
    {
        self.number
    }

    /// Whether the clauses are in the open formula.
    pub fn is_active(&self) -> bool
        ensures { result ≡ self.now.active }
    {
        self.active
    }

    /// The clauses, in the order in which they came.
    pub fn clauses(&self) -> &[LitList]
        ensures { result.now ≡ self.now.clauses }
    {
        &self.rows
    }

    // Makes the group active or inactive.
    fn mark(&mut self, active: bool)
        ensures { self.new ≡ record self.old { active = active } }
    {
        self.active = active;
    }

    // Puts a clause behind the others. Without memory nothing changes.
    fn put(&mut self, row: LitList) -> Result<(), AllocError>
        ensures ok { OnOk result (self.new ≡ record self.old { clauses = self.old.clauses ++ row ∷ [] }) }
        ensures err { OnErr result (self.new ≡ self.old) }
    {
        self.rows.push(row)?;
        Ok(())
    }

    // Takes the last clause out.
    fn pop(&mut self) -> Option<LitList>
        ensures last { IfSome result (λ row. self.old ≡ record self.new { clauses = self.new.clauses ++ row ∷ [] }) }
        ensures none { IfNone result ((self.old.clauses ≡ []) × (self.new ≡ self.old)) }
    {
        self.rows.pop()
    }
}

// The groups that were opened, by number, and the open one.
//
// A group is found in the logarithm of how many there are, and the open one in constant time.
#[derive(Debug, Drop)]
pub(crate) struct Groups {
    groups: Vec<Group>,
    // The place of the open one.
    current: Option<usize>,
}

impl Model for Groups {
    ghost use Rattle.frames.specs.Places.{GroupsState, AreGroups, number_at};

    ghost Value = { GroupsState };

    ghost view = { λ s. record { groups = s.groups.items; current = number_at s.groups.items s.current } };

    ghost invariant = { λ s. AreGroups s.groups.items s.current };
}

impl Groups {
    // No group. This takes no memory.
    pub(crate) fn new(alloc: Global) -> Self
        ensures { result ≡ record { groups = []; current = None } }
    {
        Self {
            groups: Vec::new(alloc),
            current: None,
        }
    }

    // All groups, by number.
    pub(crate) fn all(&self) -> &[Group]
        ensures value { result.now ≡ self.now.groups }
        ensures rising { AreRising self.now.groups }
    {
        &self.groups
    }

    // The number of the open group.
    pub(crate) fn current(&self) -> Option<u32>
        ensures { result ≡ self.now.current }
    {
        match self.current {
            Some(place) => Some(self.groups[place].number()),
            None => None,
        }
    }

    // Whether a group is open.
    pub(crate) fn is_open(&self) -> bool
        ensures value { result ≡ is_some self.now.current }
        ensures order { AreInOrder self.now }
    {
        self.current.is_some()
    }

    // The place of the group of a number, or that where it would stand.
    pub(crate) fn find(&self, number: u32) -> Result<usize, usize>
        ensures found { IfOk result (IsGroupAt self.now.groups number) }
        ensures absent { IfErr result (IsGapFor self.now.groups number) }
    {
        self.groups
            .binary_search_by_key(&number, |group| group.number())
    }

    // The group of a number, if there is one.
    pub(crate) fn group(&self, number: u32) -> Option<&Group>
        ensures { option_copied result ≡ group_at self.now.groups number }
    {
        match self.find(number) {
            Ok(place) => Some(&self.groups[place]),
            Err(_) => None,
        }
    }

    // Whether there is a group of this number.
    pub(crate) fn is_group(&self, number: u32) -> bool
        ensures { result ≡ is_group self.now.groups number }
    {
        self.group(number).is_some()
    }

    // Whether there is a group of this number, and it is active.
    pub(crate) fn is_active(&self, number: u32) -> bool
        ensures { result ≡ is_active self.now.groups number }
    {
        match self.group(number) {
            Some(group) => group.is_active(),
            None => false,
        }
    }

    // Puts the clauses of the active groups behind those of a matrix, which without memory is left with some of them.
    pub(crate) fn put_active<'a>(&'a self, matrix: &mut Matrix<'a>) -> Result<(), NoMemory>
        ensures { OnOk result (matrix.new ≡ matrix.old ++ active_in self.now.groups) }
    {
        let groups = self.all();
        for group in groups {
            if !group.is_active() {
                continue;
            }
            matrix.push(group.clauses())?;
        }
        Ok(())
    }

    // Opens the group of a number, which is put in where there is none. Without memory nothing changes.
    pub(crate) fn open_group(&mut self, number: u32) -> Result<(), AllocError>
        ensures ok { OnOk result (self.new ≡ record {
          groups = with_group number self.old.groups;
          current = Some number;
        }) }
        ensures err { OnErr result (self.new ≡ self.old) }
    {
        match self.find(number) {
            Ok(place) => {
                self.current = Some(place);
                Ok(())
            }
            Err(place) => {
                let group = Group::new(*self.groups.allocator(), number);
                self.groups.insert(place, group)?;
                self.current = Some(place);
                Ok(())
            }
        }
    }

    // Closes the open group.
    pub(crate) fn close(&mut self)
        ensures { self.new ≡ record self.old { current = None } }
    {
        self.current = None;
    }

    // Makes the group of a number active or inactive, if there is one. This takes no memory.
    pub(crate) fn mark(&mut self, number: u32, active: bool)
        ensures { self.new ≡ record self.old { groups = with_mark active number self.old.groups } }
    {
        match self.find(number) {
            Ok(place) => self.groups[place].mark(active),
            Err(_) => {}
        }
    }

    // Puts a clause into the open group, if one is open. Without memory nothing changes.
    pub(crate) fn put(&mut self, row: LitList) -> Result<(), AllocError>
        ensures order { AreInOrder self.old }
        ensures ok { OnOk result (self.new ≡ with_joined row self.old) }
        ensures err { OnErr result (self.new ≡ self.old) }
    {
        match self.current {
            Some(place) => {
                self.groups[place].put(row)?;
                Ok(())
            }
            None => Ok(()),
        }
    }

    // The last clause of the open group; none where it has none, and where no group is open.
    pub(crate) fn newest(&self) -> Option<&LitList>
        ensures last { IfSome result (λ row. self.now ≡ with_joined row.now (without_last self.now)) }
        ensures none { (n : ℕ) → self.now.current ≡ Some n → result ≡ None → clauses_at self.now.groups n ≡ [] }
    {
        match self.current {
            Some(place) => self.groups[place].clauses().last(),
            None => None,
        }
    }

    // Takes the last clause of the open group out, if one is open.
    pub(crate) fn take_last(&mut self) -> Option<LitList>
        ensures order { AreInOrder self.new }
        ensures value { self.new ≡ without_last self.old }
        ensures last { IfSome result (λ row. self.old ≡ with_joined row self.new) }
        ensures none { (n : ℕ) → self.old.current ≡ Some n → result ≡ None → clauses_at self.old.groups n ≡ [] }
    {
        match self.current {
            Some(place) => self.groups[place].pop(),
            None => None,
        }
    }
}
