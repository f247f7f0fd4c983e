// The object table's names: channels, axes, settings and objects.
#[derive(Clone, Copy)]
pub enum Channel {
    One,
    Two,
}

#[derive(Clone, Copy)]
pub enum Axis {
    X,
    Y,
}

// The PDOs by their numbers: there is one.
#[derive(Clone, Copy)]
pub enum PdoNumber {
    First,
}

// 1800:1, :2 and :5.
#[derive(Clone, Copy)]
pub enum PdoSetting {
    On,
    Transmission,
    Timer,
}

// What a block of the journal carries, one object each.
#[derive(Clone, Copy)]
pub enum Setting {
    Heartbeat,
    Pdo(PdoNumber, PdoSetting),
    Resolution,
    Operating(Axis),
    Preset(Axis),
    Offset(Axis),
    Differential(Axis),
}

// The objects that no request changes.
#[derive(Clone, Copy)]
pub enum Fixed {
    DeviceType,
    ErrorRegister,
    SyncIdentifier,
    SaveCount,
    LoadCount,
    EmergencyIdentifier,
    IdentityCount,
    Vendor,
    Product,
    Revision,
    Serial,
    ServerCount(Channel),
    RequestIdentifier(Channel),
    ReplyIdentifier(Channel),
    PdoCount(PdoNumber),
    MappingCount,
    Mapped(Axis),
    Blocks,
}

#[derive(Clone, Copy)]
pub enum Object {
    Const(Fixed),
    ErrorCount,
    ErrorEntry(u8),
    Name,
    Save,
    Load,
    Filled,
    Angle(Axis),
    Of(Setting),
}
