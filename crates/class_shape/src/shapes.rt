use lists::{Items, Text};

/// A field or a method.
#[derive(Clone, Copy, Debug, PartialEq, Eq)]
pub enum MemberKind {
    Field,
    Method,
}

/// A field or a method (JVMS 4.5 and 4.6): its flags as they stand, and its name and descriptor, each None
/// where its text can't be decoded.
#[derive(Debug, Drop)]
pub struct MemberShape {
    pub flags: u16,
    pub name: Option<Text>,
    pub descriptor: Option<Text>,
}

/// A row of `InnerClasses` (JVMS 4.7.6): a class, the class around it and its simple name, each of these
/// None where the file has 0, and its flags as they stand.
#[derive(Debug, Drop)]
pub struct InnerRow {
    pub inner: Text,
    pub outer: Option<Text>,
    pub name: Option<Text>,
    pub flags: u16,
}

/// What a class file says of its class. Names of classes are internal names, as `java/lang/String`;
/// `parent` is the super class. The rows of several `InnerClasses` attributes are joined in order.
#[derive(Debug, Drop)]
pub struct ClassShape {
    pub minor: u16,
    pub major: u16,
    pub flags: u16,
    pub name: Text,
    pub parent: Option<Text>,
    pub interfaces: Items<Text>,
    pub fields: Items<MemberShape>,
    pub methods: Items<MemberShape>,
    pub inner: Items<InnerRow>,
}
