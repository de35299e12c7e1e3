//! A QMI proxy of several devices, and worked examples, byte for byte.
#![tactic(auto)]

ghost use Rattle.qmi_many.specs.Examples.{
  ALossIsOfItsDevice,
  BadStreamsAreForDeviceZero,
  DeviceZeroElse,
  EachDeviceHasItsNumbers,
  IdsAreOfTheirDevice,
  NamedInOrderOfChoosing,
};

pub fn each_device_has_its_numbers()
    ensures { EachDeviceHasItsNumbers }
{}

pub fn a_loss_is_of_its_device()
    ensures { ALossIsOfItsDevice }
{}

pub fn device_0_where_none_is_opened()
    ensures { DeviceZeroElse }
{}

pub fn named_in_order_of_choosing()
    ensures { NamedInOrderOfChoosing }
{}

pub fn bad_streams_are_for_device_0()
    ensures { BadStreamsAreForDeviceZero }
{}

pub fn ids_are_kept_at_their_device()
    ensures { IdsAreOfTheirDevice }
{}
