// Shadow paging as a theory without code: where header, map and slots stand on the device, what the bytes mean, and what
// writes, syncs and cuts do to pages that a map leads to. Maps are functions here. It stands on `device` and `octets`.
#![tactic(auto)]
