//! Which paths are block devices, and files that are formatted whatever they contain. The transcript `devices` has the pools on devices.

use crate::image_tests::{FORMAT, FRESH};
use crate::parts::Call;
use crate::steps::make_last_calls;
use std::fs::File;
use std::io::Write;
use std::rt::Files;
use std::test::Fail;
use tp_images::{FileImages, Images};

const OVERWRITE: &[&str] = &["128", "16", "2048", "4", "--overwrite"];

#[test]
fn folders_and_devices_of_characters_are_no_block_devices(rt: HostRuntime) {
    let images = FileImages::new(&rt);
    let told = (
        images.is_device("missing.img"),
        images.is_device("."),
        images.is_device("/dev/null"),
    );
    assert_eq!(rt; told, (false, false, false));
}

/// The calls that make pools in a file that held something else.
const OVER_A_FILE: &[Call] = &[FORMAT, ("format", OVERWRITE, 0, FRESH)];

/// Makes a file that is no pool.
fn write_other<F: Files<File = File>>(files: &F, path: &str) -> Result<(), Fail> {
    File::create(files, path)?.write_all(&[1; 600])?;
    Ok(())
}

#[test]
fn file_is_made_whatever_it_holds(rt: HostRuntime) -> Result<(), Fail> {
    write_other(&rt, "held.img")?;
    make_last_calls(&rt, "held.img", OVER_A_FILE)
}
