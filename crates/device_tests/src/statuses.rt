use sync_io::Status;

pub(crate) fn exit_numbers() -> bool {
    let table = [
        (Status::Done, 0),
        (Status::BadWords, 1),
        (Status::BadInput { place: 7 }, 2),
        (Status::ReadFault, 3),
        (Status::WriteFault, 4),
        (Status::DiskFault, 5),
        (Status::BadFile { place: 7 }, 6),
        (Status::NoMemory, 7),
        (Status::InputTooLong, 8),
    ];
    let mut all = true;
    for (status, exit) in table {
        all &= status.exit() == exit;
    }
    all
}
