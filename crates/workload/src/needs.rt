ghost use Rattle.std.specs.Prelude.{◌≡◌, ◌++◌, ◌∷◌, [], OnOk, IfOk, map};
ghost use Rattle.std.specs.List.{flat_map};
ghost use Rattle.workload.specs.Needs.{class_needs, text_needs, optional, member_needs, row_needs, inner_needs, needs};
ghost use Rattle.workload.specs.Views.{need_seen};

use class_shape::{ClassShape, InnerRow, MemberShape};
use lists::Text;
use std::alloc::{AllocError, Global};
use std::marker::Model;

/// An entry that a pool needs: a class of a name, or a text.
#[derive(Clone, Copy, PartialEq, Eq, Hash)]
pub enum Need<'a> {
    Class(&'a str),
    Text(&'a str),
}

/// Needed entries in the order of the file, each as often as it is needed.
#[derive(Drop)]
pub struct NeedList<'a> {
    needs: Vec<Need<'a>>,
}

impl<'a> Model for NeedList<'a> {
    ghost use Rattle.std.specs.Prelude.{List, map};
    ghost use Rattle.workload.specs.Needs.{Needed};
    ghost use Rattle.workload.specs.Views.{need_seen};

    ghost Value = { List Needed };

    ghost view = { λ l. map need_seen l.needs.items };
}

impl<'a> NeedList<'a> {
    fn push(&mut self, need: Need<'a>) -> Result<(), AllocError>
        ensures { OnOk result (self.new ≡ self.old ++ need_seen need.entry ∷ []) }
    {
        self.needs.push(need)?;
        Ok(())
    }

    fn push_class(&mut self, name: &'a Text) -> Result<(), AllocError>
        ensures { OnOk result (self.new ≡ self.old ++ class_needs name.now) }
    {
        self.push(Need::Class(name.as_str()))?;
        self.push(Need::Text(name.as_str()))
    }

    fn push_class_or_none(&mut self, name: &'a Option<Text>) -> Result<(), AllocError>
        ensures { OnOk result (self.new ≡ self.old ++ optional class_needs name.now) }
    {
        match name {
            Some(name) => self.push_class(name),
            None => Ok(()),
        }
    }

    fn push_text_or_none(&mut self, text: &'a Option<Text>) -> Result<(), AllocError>
        ensures { OnOk result (self.new ≡ self.old ++ optional text_needs text.now) }
    {
        match text {
            Some(text) => self.push(Need::Text(text.as_str())),
            None => Ok(()),
        }
    }

    fn push_classes(&mut self, names: &'a [Text]) -> Result<(), AllocError>
        ensures { OnOk result (self.new ≡ self.old ++ flat_map class_needs names.now) }
    {
        for i in 0..names.len() {
            self.push_class(&names[i])?;
        }
        Ok(())
    }

    fn push_member(&mut self, member: &'a MemberShape) -> Result<(), AllocError>
        ensures { OnOk result (self.new ≡ self.old ++ member_needs member.now) }
    {
        self.push_text_or_none(&member.name)?;
        self.push_text_or_none(&member.descriptor)
    }

    fn push_members(&mut self, members: &'a [MemberShape]) -> Result<(), AllocError>
        ensures { OnOk result (self.new ≡ self.old ++ flat_map member_needs members.now) }
    {
        for i in 0..members.len() {
            self.push_member(&members[i])?;
        }
        Ok(())
    }

    fn push_row(&mut self, row: &'a InnerRow) -> Result<(), AllocError>
        ensures { OnOk result (self.new ≡ self.old ++ row_needs row.now) }
    {
        self.push_class(&row.inner)?;
        self.push_class_or_none(&row.outer)?;
        self.push_text_or_none(&row.name)
    }

    fn push_rows(&mut self, rows: &'a [InnerRow]) -> Result<(), AllocError>
        ensures { OnOk result (self.new ≡ self.old ++ flat_map row_needs rows.now) }
    {
        for i in 0..rows.len() {
            self.push_row(&rows[i])?;
        }
        Ok(())
    }

    fn push_inner(&mut self, rows: &'a [InnerRow]) -> Result<(), AllocError>
        ensures { OnOk result (self.new ≡ self.old ++ inner_needs rows.now) }
    {
        if rows.is_empty() {
            return Ok(());
        }
        self.push(Need::Text("InnerClasses"))?;
        self.push_rows(rows)
    }

    /// The needs.
    pub fn as_slice(&self) -> &[Need<'a>]
        ensures { map need_seen result.now ≡ self.now }
    {
        &self.needs
    }
}

/// The entries that a shape needs, in the order of its file.
#[tactic(auto, unfolding(crate::specs::Needs::needs))]
pub fn needs_of(alloc: Global, shape: &ClassShape) -> Result<NeedList<'_>, AllocError>
    ensures { IfOk result (λ list. list ≡ needs shape.now) }
{
    let mut list = NeedList {
        needs: Vec::new(alloc),
    };
    list.push_class(&shape.name)?;
    list.push_class_or_none(&shape.parent)?;
    list.push_classes(shape.interfaces.as_slice())?;
    list.push_members(shape.fields.as_slice())?;
    list.push_members(shape.methods.as_slice())?;
    list.push_inner(shape.inner.as_slice())?;
    Ok(list)
}
