// Where a scene is wrong, and which limit was passed.

/// A place in a scene. Cards and scripts are counted from 0, lines from 1.
#[derive(Clone, Copy, PartialEq, Eq, Debug)]
pub enum Where {
    NotToml,
    Cards,
    Card(u32),
    Script(u32),
    Line(u32, u32),
    Schedule,
}

/// A limit of the program's input.
#[derive(Clone, Copy, PartialEq, Eq, Debug)]
pub enum Limit {
    Input,
    Cards,
    Scripts,
    Lines,
    Schedule,
    LimitPin,
    LimitPuk,
    LimitGlobal,
    Budget,
    Losses,
    Object,
    Room,
    Put,
    Puts,
    Crypt,
    Apdu,
    Login,
    Aid,
}
