// The bytes that tell kinds apart: the first of an item, and the tag of a field.
ghost use Rattle.std.specs.Prelude.{◌≡◌};
ghost use Rattle.plan_file.specs.Kinds.{kind_of, kind_byte, tag_kind, tag_byte};

// What an item is.
#[derive(Clone, Copy)]
pub enum ItemKind {
    Opened = 1,
    Used = 2,
    Closed = 3,
}

impl ItemKind {
    // The kind that a byte stands for, if it stands for one.
    pub fn of(byte: u8) -> Option<ItemKind>
        ensures { result ≡ kind_of byte }
    {
        match byte {
            1 => Some(ItemKind::Opened),
            2 => Some(ItemKind::Used),
            3 => Some(ItemKind::Closed),
            _ => None,
        }
    }

    pub fn byte(self) -> u8
        ensures { result ≡ kind_byte self }
    {
        self as u8
    }
}

// What a field is.
#[derive(Clone, Copy)]
pub enum Tag {
    Group = 1,
    Use = 2,
}

impl Tag {
    // The tag that a byte stands for, if it stands for one.
    pub fn of(byte: u8) -> Option<Tag>
        ensures { result ≡ tag_kind byte }
    {
        match byte {
            1 => Some(Tag::Group),
            2 => Some(Tag::Use),
            _ => None,
        }
    }

    pub fn byte(self) -> u8
        ensures { result ≡ tag_byte self }
    {
        self as u8
    }
}
